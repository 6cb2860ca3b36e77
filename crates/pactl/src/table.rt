// A table in its bytes: its lines read, and whether they are good.

ghost use Rattle.std.specs.Prelude.{◌+◌, ◌*◌, ◌≤◌, ◌<◌, ◌≡◌, length};
ghost use Rattle.pactl.specs.Table.{good_line, good_table};
ghost use Rattle.pactl.specs.TableBytes.{line_at, lines_of};

use crate::Line;

// Line i of a table's bytes.
pub fn read_line(table: &[u8], i: u32) -> Line
    requires { (i < 64) × (3 * i + 3 ≤ length table.now) }
    ensures { result ≡ line_at table.now i }
{
    let at = 3 * i as usize;
    Line {
        kind: table[at],
        a: table[at + 1],
        b: table[at + 2],
    }
}

// Whether line i of a table is good, with k processes.
// By hand, for speed: both kinds with one line are one test. The pattern `1 | 3` is compiled to two, and a call on a table
// of 64 lines of all kinds then takes up to half as long again.
pub fn good_line(k: u32, i: u32, line: Line) -> bool
    ensures { result ≡ good_line k i line }
{
    let a = u32::from(line.a);
    let b = u32::from(line.b);
    match line.kind {
        0 => (a < k) & (b <= 7),
        kind if (kind == 1) | (kind == 3) => (a < i) & (b == 0),
        kind => (kind <= 5) & ((a < i) & (b < i)),
    }
}

// Whether the first lines of a table are good.
pub fn good_table(k: u32, table: &[u8], lines: u32) -> bool
    requires { (lines ≤ 64) × (3 * lines ≤ length table.now) }
    ensures { result ≡ good_table k (lines_of table.now lines) }
{
    (0..lines).all(|i| good_line(k, i, read_line(table, i)))
}
