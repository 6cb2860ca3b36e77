// The width of a count: two bytes (01, The window), or four (02 [6]). What takes it is compiled into its callers, by
// `#[inline(always)]`: there the compiler knows the number, which it would else read anew for each count.

ghost use Rattle.std.specs.Prelude.{ℕ, ◌≡◌};
ghost use Rattle.frontiers.specs.Width.{Width};

use std::marker::Model;

// A contract sees its number of bytes.
#[derive(Clone, Copy)]
pub struct CountWidth {
    bytes: usize,
}

impl Model for CountWidth {
    ghost Value = { ℕ };

    ghost view = { λ w. w.bytes };

    ghost invariant = { λ w. Width w.bytes };

    ghost inverse = { λ bytes. record { bytes = bytes } };
}

impl CountWidth {
    // Of so many bytes.
    #[inline(always)]
    pub fn of(bytes: usize) -> Self
        requires { Width bytes }
        ensures { result ≡ bytes }
    {
        CountWidth { bytes }
    }

    // How many bytes a count has.
    #[inline(always)]
    pub fn bytes(self) -> usize
        ensures value { result ≡ self }
        ensures width { Width self }
    {
        self.bytes
    }
}
