// What is gathered for a new frontier from the frontiers laid down before it.

ghost use Rattle.std.specs.Prelude.{◌≤◌, ◌<◌, ◌≡◌};
ghost use Rattle.window.specs.Step.{Setting, gathered};
ghost use Rattle.window_step.specs.Gathering.{sought_with, gathered_of};

use crate::Found;
use frontiers::Frontier;
use frontiers::listed::Frontiers;

// Whether process p's last event may lead to a new frontier: it is not the event itself, and p is the first of its
// processes.
fn is_sought(mask: u8, last: u8, p: u32) -> bool
    requires { p < 8 }
    ensures { result ≡ sought_with mask last p }
{
    !codec::has_bit(u64::from(mask), p) && last != 0 && codec::lowest_bit(last) == p
}

// All of the k processes that are sought are considered, each looked up from its hint among the frontiers laid down;
// the frontier that g came from precedes it always. As the look-up, this is compiled into its caller.
#[inline(always)]
pub fn gather(laid: &Frontiers, k: u32, mask: u8, g: Frontier, mut hints: [usize; 8]) -> Found
    requires { k ≤ 8 }
    ensures { (s : Setting) → s.stored ≡ 8 → s.event.mask ≡ mask → gathered_of result ≡ gathered s laid.now hints g k }
{
    let mut ors = g.values;
    let mut ands = g.values;
    for p in 0..k {
        let i = p as usize;
        let last = g.masks[i];
        if is_sought(mask, last, p) {
            let key = clocks::step::minus(last, g.counts);
            if let Some(place) = lookup::seek::seek(laid, key, hints[i]) {
                let values = laid.values_at(place);
                ors |= values;
                ands &= values;
                hints[i] = place + 1;
            }
        }
    }
    Found { ors, ands, hints }
}
