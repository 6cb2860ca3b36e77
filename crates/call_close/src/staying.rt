// The frontiers that stay, moved together in the window; the others dropped.

ghost use Rattle.std.specs.Prelude.{◌≤◌, ◌≡◌, length};
ghost use Rattle.std.proofs.lemmas.List.Edits.{sets};
ghost use Rattle.frontiers.specs.Bytes.{framed, replaced};
ghost use Rattle.window.specs.Room.{RoomFor, PlaceFor};
ghost use Rattle.call_close.specs.CloseCode.{staying, moved_to};

use frontiers::moving::{clear, move_part_down};
use frontiers::place::{frontier_length, frontier_place};
use frontiers::stored::counts_at;
use frontiers::width::CountWidth;
use window::prepared::{open_ones, stays};

// Moves frontier number i down to place m. (It stands there already where all before it stay.)
#[inline(always)]
fn settle(window: &mut [u8], w: CountWidth, i: usize, m: usize)
    requires place_for { PlaceFor w i window.old }
    requires m_le_i { m ≤ i }
    ensures { window.new ≡ moved_to w window.old i m }
{
    if i <= m {
        return;
    }
    let to = frontier_place(w, m);
    let from = frontier_place(w, i);
    if w.bytes() == 2 {
        move_part_down::<40>(window, to, from - to);
    } else {
        move_part_down::<56>(window, to, from - to);
    }
}

// Moves those of n frontiers that stay to the window's start, in their order: how many they are.
#[inline(always)]
fn keep_staying(
    window: &mut [u8],
    w: CountWidth,
    n: usize,
    k: u32,
    closed: u64,
    reached: [u32; 8],
) -> usize
    requires room_for { RoomFor w n window.old }
    requires k_bound { k ≤ 8 }
    ensures upper_bound { result ≤ n }
    ensures value { result ≡ length (staying w k closed reached window.old n) }
    ensures window_after { window.new
        ≡ sets window.old 0 (framed w (staying w k closed reached window.old n)) }
{
    let opens = open_ones(k, closed);
    let mut m = 0;
    for i in 0..n {
        let counts = counts_at(window, w, i);
        if stays(opens, reached, counts) {
            settle(window, w, i, m);
            m += 1;
        }
    }
    m
}

// Drops those of n frontiers that do not stay, and clears what they leave behind: how many are kept.
#[inline(always)]
pub fn drop_others(
    window: &mut [u8],
    w: CountWidth,
    n: usize,
    k: u32,
    closed: u64,
    reached: [u32; 8],
) -> usize
    requires room_for { RoomFor w n window.old }
    requires k_bound { k ≤ 8 }
    ensures upper_bound { result ≤ 1024 }
    ensures value { result ≡ length (staying w k closed reached window.old n) }
    ensures window_after { window.new
        ≡ replaced w window.old n (staying w k closed reached window.old n) }
{
    let m = keep_staying(window, w, n, k, closed, reached);
    let end = frontier_place(w, m);
    clear(window, end, frontier_place(w, n - m));
    m
}
