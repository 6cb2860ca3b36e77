// The order in which take tries the pending events (01, The calls: from the lowest process up). In every watch it is
// the one in which they stand; on other bytes the turns are looked for.

ghost use Rattle.std.specs.Prelude.{◌≤◌, ◌<◌, ◌≡◌, length, get_or};
ghost use Rattle.clocks.specs.Key.{lowest};
ghost use Rattle.records.specs.Record.{record_length, pending_count, pending_at, pending_events};
ghost use Rattle.trial.specs.Trial.{in_turn};
ghost use Rattle.trial.specs.TurnLaws.{ascending};

use frontiers::width::CountWidth;
use records::fields::pending_place;

// The lowest process of pending event number i.
#[inline(always)]
fn lowest_at(record: &[u8], w: CountWidth, i: usize) -> u32
    requires record_len { length «record».now ≡ record_length w }
    requires i_bound { i < 32 }
    ensures { (result ≡ lowest (pending_at w «record».now i)) × (result ≤ 8) }
{
    codec::lowest_bit(record[pending_place(w, i)])
}

// Whether none of the pending events has a lower lowest process than the one before it.
#[inline(always)]
pub fn in_order(record: &[u8], w: CountWidth, pending: usize) -> bool
    requires record_len { length «record».now ≡ record_length w }
    requires pending_value { (pending ≡ pending_count «record».now) × (pending ≤ 32) }
    ensures { result ≡ ascending 0 (pending_events w «record».now) }
{
    let mut last = 0;
    for i in 0..pending {
        let p = lowest_at(record, w, i);
        if p < last {
            return false;
        }
        last = p;
    }
    true
}

// The place of the event in turn after so many, looked for from process 0 up; an event of no process has 8 for its
// lowest.
#[inline(always)]
fn sought_place(record: &[u8], w: CountWidth, pending: usize, turn: usize) -> usize
    requires record_len { length «record».now ≡ record_length w }
    requires pending_value { (pending ≡ pending_count «record».now) × (pending ≤ 32) }
    ensures { (result ≡ get_or (in_turn (pending_events w «record».now)) turn 0) × (result < 32) }
{
    let mut left = turn;
    for p in 0..9 {
        for i in 0..pending {
            if lowest_at(record, w, i) == p {
                if left == 0 {
                    return i;
                }
                left -= 1;
            }
        }
    }
    0
}

// The place of the event in turn after so many.
#[inline(always)]
pub fn place_in_turn(
    record: &[u8],
    w: CountWidth,
    pending: usize,
    ordered: bool,
    turn: usize,
) -> usize
    requires record_len { length «record».now ≡ record_length w }
    requires pending_value { (pending ≡ pending_count «record».now) × (pending ≤ 32) }
    requires ordered_value { ordered ≡ ascending 0 (pending_events w «record».now) }
    requires turn_lt_pending { turn < pending }
    ensures { (result ≡ get_or (in_turn (pending_events w «record».now)) turn 0) × (result < 32) }
{
    if ordered {
        turn
    } else {
        sought_place(record, w, pending, turn)
    }
}
