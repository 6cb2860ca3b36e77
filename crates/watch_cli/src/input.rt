// Standard input, from chunks of any size to lines.

ghost use Rattle.std.specs.Prelude.{◌≤◌, IfSome, length};

use program::split::scan;
use std::io::Read;

// What is read at once.
const CHUNK_BYTES: usize = 4096;

// The input: what reads it; a chunk, of whose bytes those from `at` to before `end` are not used yet; and whether the input is
// over after them.
#[derive(Drop)]
pub(crate) struct Input<R> {
    reader: R,
    chunk: [u8; CHUNK_BYTES],
    at: usize,
    end: usize,
    over: bool,
    ghost within: { end ≤ 4096 },
}

impl<R: Read> Input<R> {
    // Nothing is read yet.
    pub(crate) fn new(reader: R) -> Input<R> {
        Input {
            reader,
            chunk: [0u8; CHUNK_BYTES],
            at: 0,
            end: 0,
            over: false,
        }
    }

    // Brings bytes into the chunk, or the input is over: the chunk is read anew if its bytes are used. A read that fails
    // ends the input too.
    fn refill(&mut self) {
        if self.at < self.end || self.over {
            return;
        }
        self.at = 0;
        self.end = self.reader.read(&mut self.chunk).unwrap_or(0);
        self.over = self.end == 0;
    }

    // How many bytes the next line has, without its line feed; none where the input is over. Bytes that `line` has no
    // room for are passed over. Bytes after the last line feed are a line. A proved loop has to end, and nothing says
    // that the input does: so the chunks are counted, up to a number that no input has.
    pub(crate) fn next_line(&mut self, line: &mut [u8]) -> Option<usize>
        ensures { IfSome result (λ n. n ≤ length line.new) }
    {
        let mut kept: usize = 0;
        for _ in 0..u64::MAX {
            self.refill();
            if self.at >= self.end {
                return if kept > 0 { Some(kept) } else { None };
            }
            let part = scan(&self.chunk[self.at..self.end], line, kept);
            kept = part.kept;
            self.at += part.used;
            if part.feed {
                return Some(kept);
            }
        }
        None
    }
}
