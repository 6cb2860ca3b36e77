// Lines out of the bytes that were read (01, Examples: the program): line feeds belong to no line.

ghost use Rattle.std.specs.Prelude.{◌≡◌, ◌≤◌, eqb, length, position};
ghost use Rattle.program.specs.Split.{Scanned};

use crate::Scan;

// The place of the first line feed.
fn feed_place(bytes: &[u8]) -> Option<usize>
    ensures { result ≡ position (λ b. eqb b 10) bytes.now }
{
    bytes.iter().position(|&byte| byte == b'\n')
}

// Adds the bytes up to the first line feed, or all, to a line's bytes so far. Those that the line has no room for are
// passed over.
pub fn scan(bytes: &[u8], line: &mut [u8], start: usize) -> Scan
    requires { start ≤ length line.old }
    ensures { Scanned bytes.now line.old start line.new result }
{
    let feed = feed_place(bytes);
    let text = match feed {
        Some(i) => &bytes[..i],
        None => bytes,
    };
    let n = text.len().min(line.len() - start);
    let end = start + n;
    line[start..end].copy_from_slice(&text[..n]);
    Scan {
        used: text.len() + usize::from(feed.is_some()),
        kept: end,
        feed: feed.is_some(),
    }
}
