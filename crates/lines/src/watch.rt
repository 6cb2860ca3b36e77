// The line that opens: processes and room.

ghost use Rattle.std.specs.Prelude.{◌≡◌};
ghost use Rattle.lines.specs.Lines.{watch_line};
ghost use Rattle.lines.specs.LinesCode.{watch_line_of, watch_pieces};

use crate::limits::{K_LIMIT, ROOM_LIMIT};
use line_pieces::reading::{head, limited, then_byte, then_end, then_number};
use numbers::fault::Fault;

// The line that opens: the number of processes and the room in frontiers.
#[derive(Clone, Copy, Debug, PartialEq, Eq)]
pub struct Watch {
    pub k: u64,
    pub room: u64,
}

// The line's pieces, in a line of any length.
fn pieces(line: &[u8]) -> Result<Watch, Fault>
    ensures { watch_line_of result ≡ watch_pieces line.now }
{
    let word = head(line, b"(watch ")?;
    let k = then_number(line, 0, K_LIMIT, word)?;
    let space = then_byte(line, b' ', k)?;
    let room = then_number(line, 1, ROOM_LIMIT, space)?;
    let bracket = then_byte(line, b')', room)?;
    let end = then_end(line, bracket)?;
    Ok(Watch {
        k: k.value,
        room: end.value,
    })
}

// Reads (watch k room).
pub fn read_watch(line: &[u8]) -> Result<Watch, Fault>
    ensures { watch_line_of result ≡ watch_line line.now }
{
    limited(line, pieces(line))
}
