// Bytes moved within a slice, filled in, and cleared.

ghost use Rattle.std.specs.Prelude.{◌+◌, ◌≤◌, ◌≡◌, length, take, drop, replicate};
ghost use Rattle.std.proofs.lemmas.List.Edits.{sets};

// Moves n bytes up by so many places.
pub fn move_up(s: &mut [u8], from: usize, n: usize, by: usize)
    requires { from + by + n ≤ length s.old }
    ensures { s.new ≡ sets s.old (from + by) (take n (drop from s.old)) }
{
    s.copy_within(from..from + n, from + by);
}

// Moves n bytes down by so many places.
pub fn move_down(s: &mut [u8], to: usize, n: usize, by: usize)
    requires { to + by + n ≤ length s.old }
    ensures { s.new ≡ sets s.old to (take n (drop (to + by) s.old)) }
{
    s.copy_within(to + by..to + by + n, to);
}

// Moves N bytes down by so many places. By hand, for speed: all are read before one is written, so the compiler moves
// them at once. With `copy_within`, or byte by byte, a close takes the bytes of a frontier one by one out of the counts
// that it has just compared, and needs up to twice the time.
#[inline(always)]
pub fn move_part_down<const N: usize>(s: &mut [u8], to: usize, by: usize)
    requires { to + by + N ≤ length s.old }
    ensures { s.new ≡ sets s.old to (take N (drop (to + by) s.old)) }
{
    let part: [u8; N] = codec::bytes_at(s, to + by);
    s[to..to + N].copy_from_slice(&part);
}

// Stores one byte n times.
pub fn fill(s: &mut [u8], from: usize, n: usize, byte: u8)
    requires { from + n ≤ length s.old }
    ensures { s.new ≡ sets s.old from (replicate n byte) }
{
    s[from..from + n].fill(byte);
}

// Clears n bytes.
pub fn clear(s: &mut [u8], from: usize, n: usize)
    requires { from + n ≤ length s.old }
    ensures { s.new ≡ sets s.old from (replicate n 0) }
{
    fill(s, from, n, 0);
}

// Clears every byte.
pub fn clear_all(s: &mut [u8])
    ensures { s.new ≡ replicate (length s.old) 0 }
{
    s.fill(0);
}

// Copies the first n bytes of a slice to a place of another.
pub fn copy_in(s: &mut [u8], place: usize, from: &[u8], n: usize)
    requires n_in_bounds { place + n ≤ length s.old }
    requires n_in_bounds_2 { n ≤ length from.now }
    ensures { s.new ≡ sets s.old place (take n from.now) }
{
    s[place..place + n].copy_from_slice(&from[..n]);
}
