// One line answered.
ghost use Rattle.std.specs.Prelude.{◌+◌, ◌*◌, length};
ghost use Rattle.memory.specs.TreeIn.{Known};
ghost use Rattle.commands.specs.Output.{HasRoom};
ghost use Rattle.line_program.specs.Response.{lent, Responded};

use commands::{
    Command, Output, parse, put_cleared, put_inserted, put_other, put_point, put_removed,
    put_window,
};
use geometry::{Cell, Rect};
use insertion::insert_known;
use layout::Entry;
use queries::{point_known, window_known};
use removal::{clear, remove_known};

// Carries out the command of a line, without its LF, and puts the answer into the output. There must be room for the
// longest answer. An index that is known to be one is not tested. The three lists are no struct: a struct behind a
// `&mut` does not yet lend one field to be read and another to be written in one call, as a window query needs.
pub fn respond(
    line: &[u8],
    m: &mut [u32],
    work: &mut [u32],
    list: &mut [u32],
    known: bool,
    out: &mut Output,
)
    requires room { HasRoom out.old (64 + 12 * length list.old) }
    requires known { Known m.old known }
    ensures { Responded line.now (lent m.old work.old list.old)
        (lent m.new work.new list.new) out.old out.new }
{
    match parse(line) {
        Some(Command::Insert { x, y, tag }) => {
            let entry = Entry {
                cell: Cell { x, y },
                tag,
            };
            put_inserted(out, insert_known(m, work, known, entry));
        }
        Some(Command::Remove { x, y }) => put_removed(out, remove_known(m, known, Cell { x, y })),
        Some(Command::Point { x, y }) => put_point(out, point_known(m, known, Cell { x, y })),
        Some(Command::Window { llx, lly, urx, ury }) => {
            let w = Rect { llx, lly, urx, ury };
            let r = window_known(m, known, w, list);
            put_window(out, r, list);
        }
        Some(Command::Clear) => put_cleared(out, clear(m)),
        None => put_other(out),
    }
}

// The same for a line by itself: the index is tested first.
pub fn answer_line(line: &[u8], m: &mut [u32], work: &mut [u32], list: &mut [u32], out: &mut Output)
    requires { HasRoom out.old (64 + 12 * length list.old) }
    ensures { Responded line.now (lent m.old work.old list.old)
        (lent m.new work.new list.new) out.old out.new }
{
    respond(line, m, work, list, false, out);
}
