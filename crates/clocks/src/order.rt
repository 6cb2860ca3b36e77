// The order of the pending events (01, The window: held events).

ghost use Rattle.std.specs.Prelude.{◌≡◌};
ghost use Rattle.clocks.specs.Key.{key_of, key_before};

use crate::{Event, Key};

// An event's place in the order: its lowest process, and the count there.
pub fn key(e: Event) -> Key
    ensures { result ≡ key_of e }
{
    let process = codec::lowest_bit(e.mask);
    let count = e.clock.get(process as usize).copied().unwrap_or(0);
    Key { process, count }
}

// Whether one key comes before another: a lower process, or the same one and a lower count.
pub fn key_before(a: Key, b: Key) -> bool
    ensures { result ≡ key_before a b }
{
    a < b
}
