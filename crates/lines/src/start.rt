// The line with the start labels.

ghost use Rattle.std.specs.Prelude.{◌≡◌};
ghost use Rattle.lines.specs.Lines.{start_line};
ghost use Rattle.lines.specs.LinesCode.{start_line_of, start_pieces};

use crate::limits::LABEL_LIMIT;
use crate::words::word_of;
use line_pieces::list::{then_close, then_spaced_list};
use line_pieces::reading::{head, limited, then_end};
use numbers::fault::Fault;

// The line's pieces, in a line of any length.
fn pieces(line: &[u8], k: u64) -> Result<u64, Fault>
    ensures { start_line_of result ≡ start_pieces line.now k }
{
    let word = head(line, b"(start")?;
    let labels = then_spaced_list(line, LABEL_LIMIT, word)?;
    let bracket = then_close(line, k, k, labels.here)?;
    then_end(line, bracket)?;
    Ok(word_of(256, &labels.values))
}

// Reads (start l ..) for k processes, to labels as the bytes of a word.
pub fn read_start(line: &[u8], k: u64) -> Result<u64, Fault>
    ensures { start_line_of result ≡ start_line line.now k }
{
    limited(line, pieces(line, k))
}
