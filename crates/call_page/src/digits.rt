// Counts in decimal digits, two at a time from a table that is laid once for a page.

ghost use Rattle.std.specs.Prelude.{◌+◌, ◌/◌, ◌%◌, ◌≤◌, ◌<◌, ◌≡◌, [], ◌∷◌, length};
ghost use Rattle.std.proofs.lemmas.List.Edits.{sets};
ghost use Rattle.codec.specs.Decimal.{numeral};
ghost use Rattle.call_page.specs.Page.{aligned};
ghost use Rattle.call_page.specs.PageCode.{Pairs};

// The two digits of each number below 100, tens first.
#[derive(Drop)]
pub struct DigitPairs {
    digits: [u8; 200],
    ghost laid: { Pairs digits },
}

impl DigitPairs {
    pub fn new() -> DigitPairs {
        let mut digits = [0u8; 200];
        for n in 0..100 {
            digits[2 * n] = b'0' + (n / 10) as u8;
            digits[2 * n + 1] = b'0' + (n % 10) as u8;
        }
        DigitPairs { digits }
    }

    // Writes the two digits of a number below 100. Both are read before one is written: so the compiler may move them
    // together.
    fn put(&self, page: &mut [u8], at: usize, n: u32)
        requires n_bound { n < 100 }
        requires at_in_bounds { at + 2 ≤ length page.old }
        ensures { page.new ≡ sets page.old at ((48 + n / 10) ∷ (48 + n % 10) ∷ []) }
    {
        let place = 2 * (n as usize);
        let tens = self.digits[place];
        let ones = self.digits[place + 1];
        page[at] = tens;
        page[at + 1] = ones;
    }

    // Writes a count's column: blanks, and over them the digits, the last two first.
    pub fn put_count(&self, page: &mut [u8], at: usize, count: u32)
        requires { at + 11 ≤ length page.old }
        ensures { page.new ≡ sets page.old at (aligned 11 (numeral count)) }
    {
        page[at..at + 11].fill(b' ');
        let mut rest = count;
        let mut i: usize = 11;
        while 100 <= rest {
            i -= 2;
            self.put(page, at + i, rest % 100);
            rest /= 100;
        }
        if 10 <= rest {
            self.put(page, at + i - 2, rest);
        } else {
            page[at + i - 1] = b'0' + rest as u8;
        }
    }
}
