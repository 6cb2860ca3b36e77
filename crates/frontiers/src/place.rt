// Where frontiers stand in a window, for counts of two or four bytes.

ghost use Rattle.std.specs.Prelude.{◌+◌, ◌*◌, ◌≤◌, ◌≡◌};
ghost use Rattle.frontiers.specs.Bytes.{frontier_length};

use crate::width::CountWidth;

// The length of a frontier.
#[inline(always)]
pub fn frontier_length(w: CountWidth) -> usize
    ensures { (result ≡ frontier_length w) × (result ≤ 56) }
{
    8 * w.bytes() + 24
}

// The place of frontier number i.
#[inline(always)]
pub fn frontier_place(w: CountWidth, i: usize) -> usize
    requires i_bound { i ≤ 1024 }
    ensures { (result ≡ i * frontier_length w) × (result ≤ 57344) }
{
    if w.bytes() == 2 { i * 40 } else { i * 56 }
}
