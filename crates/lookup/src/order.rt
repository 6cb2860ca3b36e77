// The order of counts, process 0 compared first.

ghost use Rattle.std.specs.Prelude.{◌≡◌};
ghost use Rattle.lookup.specs.Order.{before, same};

// Whether counts stand before others. By hand, for speed: `a < b` takes more than twice the instructions.
pub fn counts_before(a: [u32; 8], b: [u32; 8]) -> bool
    ensures { result ≡ before a b }
{
    for p in 0..8 {
        if a[p] != b[p] {
            return a[p] < b[p];
        }
    }
    false
}

// Whether counts are the same. By hand, for speed: all eight are compared, without a branch, so that the compiler can do
// it at once, where `a == b` looks for the first that differs.
pub fn counts_same(a: [u32; 8], b: [u32; 8]) -> bool
    ensures { result ≡ same a b }
{
    let mut all = true;
    for p in 0..8 {
        all &= a[p] == b[p];
    }
    all
}
