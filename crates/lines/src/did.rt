// An event's line.

ghost use Rattle.std.specs.Prelude.{Ok, ◌≤◌, ◌≡◌};
ghost use Rattle.line_pieces.specs.Read.{At};
ghost use Rattle.lines.specs.Lines.{did_of, did_line};
ghost use Rattle.lines.specs.LinesCode.{did_line_of, did_pieces};

use crate::limits::{COUNT_BASE, COUNT_LIMIT, LABEL_LIMIT, PROCESS_LIMIT};
use crate::words::{place, word_of};
use line_pieces::list::{Order, then_close, then_list};
use line_pieces::reading::{head, limited, then_byte, then_bytes, then_end};
use numbers::fault::Fault;

// An event's line: a bit for each process that takes part, a clock in four words of two counts each, the lower process
// in the lower half, and labels as the bytes of a word.
#[derive(Clone, Copy, Debug, PartialEq, Eq)]
pub struct Did {
    pub mask: u64,
    pub c01: u64,
    pub c23: u64,
    pub c45: u64,
    pub c67: u64,
    pub labels: u64,
}

// What the line's lists make up, where n processes take part.
fn did_of(n: u64, processes: &[u64; 8], counts: &[u64; 8], labels: &[u64; 8]) -> Did
    requires { n ≤ 8 }
    ensures { did_line_of (Ok result) ≡ did_of n processes.now counts.now labels.now (At 0 0) }
{
    Did {
        mask: word_of(2, &place(n, processes, &[1u64; 8])),
        c01: word_of(COUNT_BASE, &counts[0..2]),
        c23: word_of(COUNT_BASE, &counts[2..4]),
        c45: word_of(COUNT_BASE, &counts[4..6]),
        c67: word_of(COUNT_BASE, &counts[6..8]),
        labels: word_of(256, &place(n, processes, labels)),
    }
}

// The line's pieces, in a line of any length.
fn pieces(line: &[u8], k: u64) -> Result<Did, Fault>
    ensures { did_line_of result ≡ did_pieces line.now k }
{
    let word = head(line, b"(did (")?;
    let processes = then_list(line, Order::Ascending, PROCESS_LIMIT, word)?;
    let first = then_close(line, 1, 8, processes.here)?;
    let n = first.value;
    let second = then_bytes(line, b" (", first)?;
    let counts = then_list(line, Order::Any, COUNT_LIMIT, second)?;
    let third = then_close(line, k, k, counts.here)?;
    let fourth = then_bytes(line, b" (", third)?;
    let labels = then_list(line, Order::Any, LABEL_LIMIT, fourth)?;
    let last = then_close(line, n, n, labels.here)?;
    let bracket = then_byte(line, b')', last)?;
    then_end(line, bracket)?;
    Ok(did_of(n, &processes.values, &counts.values, &labels.values))
}

// Reads (did (p ..) (c ..) (l ..)) for k processes.
pub fn read_did(line: &[u8], k: u64) -> Result<Did, Fault>
    ensures { did_line_of result ≡ did_line line.now k }
{
    limited(line, pieces(line, k))
}
