// The frontiers at the start of a window's bytes, read in place.

ghost use Rattle.std.specs.Prelude.{ℕ, ◌*◌, ◌≤◌, ◌<◌, ◌≡◌, [], length, map, get_or, slice_index};
ghost use Rattle.clocks.specs.Counts.{at};
ghost use Rattle.frontiers.specs.Bytes.{frontier_length, frontiers};

use crate::width::CountWidth;
use std::marker::Model;

// Bytes, the width of their counts, and how many frontiers they begin with. A contract sees the list of those.
#[derive(Drop)]
pub struct Frontiers<'a> {
    bytes: &'a [u8],
    width: CountWidth,
    count: usize,
}

impl<'a> Model for Frontiers<'a> {
    ghost use Rattle.std.specs.Prelude.{List};
    ghost use Rattle.frontiers.specs.declared.Frontier.{Frontier};

    ghost Value = { List Frontier };

    ghost use Rattle.frontiers.specs.Listed.{listed, Stands};

    ghost view = { listed };

    ghost invariant = { Stands };
}

impl<'a> Frontiers<'a> {
    // The first so many frontiers of the bytes.
    #[inline(always)]
    pub fn of(bytes: &'a [u8], width: CountWidth, count: usize) -> Frontiers<'a>
        requires count_bound { count ≤ 1024 }
        requires within { count * frontier_length width ≤ length bytes.now }
        ensures { result ≡ frontiers width bytes.now count }
    {
        Frontiers {
            bytes,
            width,
            count,
        }
    }

    // How many there are.
    #[inline(always)]
    pub fn len(&self) -> usize
        ensures value { result ≡ length self.now }
        ensures most { result ≤ 1024 }
    {
        self.count
    }

    // The count of process p in frontier number i.
    #[inline(always)]
    pub fn count_at(&self, i: usize, p: usize) -> u32
        requires i_bound { i < length self.now }
        requires p_bound { p < 8 }
        ensures value { result ≡ at (get_or (map (λ f. f.counts) self.now) i []) p }
        ensures eight { length (get_or (map (λ f. f.counts) self.now) i []) ≡ 8 }
    {
        let place = crate::place::frontier_place(self.width, i);
        crate::counts::read_count(self.bytes, place + p * self.width.bytes(), self.width)
    }

    // The counts of frontier number i.
    #[inline(always)]
    pub fn counts_at(&self, i: usize) -> [u32; 8]
        requires { i < length self.now }
        ensures { result ≡ get_or (map (λ f. f.counts) self.now) i [] }
    {
        crate::stored::counts_at(self.bytes, self.width, i)
    }

    // The values of frontier number i.
    #[inline(always)]
    pub fn values_at(&self, i: usize) -> u64
        requires { i < length self.now }
        ensures value { result ≡ slice_index (map (λ f. f.values) self.now) i }
        ensures most { length self.now ≤ 1024 }
    {
        crate::stored::values_at(self.bytes, self.width, i)
    }
}
