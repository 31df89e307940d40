// Calls as seven numbers each: the kind, the part of the lent list that the call gets, from and to, and four arguments.
ghost use Rattle.std.specs.Prelude.{◌≡◌, ◌+◌, ◌*◌, ◌≤◌, length};
ghost use Rattle.replay.specs.Coded.{call_of, coded_at, index_call, call_fits};

use geometry::{Cell, Rect};
use layout::Entry;

// A call with its arguments, of what it asks of the index.
#[derive(Clone, Copy)]
pub enum Call {
    Insert(Entry),
    Remove(Cell),
    Clear,
    Point(Cell),
    Window(Rect),
    Nearest(Cell),
    IsEmpty(Rect),
}

// The i-th call of the list. The kinds: 0 insertion, 1 removal, 2 clear, 3 point query, 4 window query, 5 nearest
// query, 6 emptiness query.
#[tactic(auto, unfolding(crate::specs::Coded::coded_at, crate::specs::Coded::call_of))]
pub fn call_at(calls: &[u32], i: usize) -> Call
    requires { 7 * i + 7 ≤ length calls.now }
    ensures { index_call result ≡ call_of (coded_at calls.now i) }
{
    let k = 7 * i;
    let cell = Cell {
        x: calls[k + 3],
        y: calls[k + 4],
    };
    let rect = Rect {
        llx: calls[k + 3],
        lly: calls[k + 4],
        urx: calls[k + 5],
        ury: calls[k + 6],
    };
    match calls[k] {
        0 => Call::Insert(Entry {
            cell,
            tag: calls[k + 5],
        }),
        1 => Call::Remove(cell),
        2 => Call::Clear,
        3 => Call::Point(cell),
        4 => Call::Window(rect),
        5 => Call::Nearest(cell),
        _ => Call::IsEmpty(rect),
    }
}

// Whether the i-th call can be made: it is there and of a known kind, its part is one of a lent list of that
// length, and there is room for its answer.
#[tactic(auto, unfolding(crate::specs::Coded::call_fits))]
pub fn fits(calls: &[u32], i: usize, lent: usize, answers: usize) -> bool
    ensures { result ≡ call_fits calls.now i lent answers }
{
    i < calls.len() / 7
        && i < answers / 8
        && calls[7 * i] <= 6
        && calls[7 * i + 1] <= calls[7 * i + 2]
        && calls[7 * i + 2] as usize <= lent
}
