// The window query: two walks into the nodes whose polygon shares a cell with the window. The first
// counts, the second writes: a list that is too short is left as it was.
ghost use Rattle.std.specs.Prelude.{◌≡◌, length};
ghost use Rattle.memory.specs.TreeIn.{TreeIn, Known};
ghost use Rattle.layout.specs.Nodes.{NodePart};
ghost use Rattle.answers.specs.Changes.{WindowCall};
ghost use Rattle.walks.specs.Walks.{meets_test, inside_test, visits_below, matches_below, leaf_entries, Walkable};
ghost use Rattle.queries.specs.Window.{matched, Listed, LeafRoom, WalkRoom, WindowDone};

use crate::listing::put_listed;
use answers::{LIST_WIDTH, Refusal, WindowFound};
use geometry::Rect;
use layout::{children_at, entries, is_index_length, part_at};
use soundness::open_known;
use walks::polygon_meets;

// How many entries of a leaf's part are in the window.
fn count_leaf(p: &[u32], w: Rect) -> u32
    requires { NodePart p.now }
    ensures { result ≡ length (leaf_entries (inside_test w) p.now) }
{
    entries(p).filter(|e| w.has_cell(e.cell)).count() as u32
}

// Counts the matches and the visits below the node at part k, whose subtree has the parts from lo on: the
// walk enters only children whose polygon shares a cell with the window.
pub fn count_below(m: &[u32], level: u32, lo: u32, k: u32, w: Rect) -> WindowFound
    requires { Walkable level m.now lo k }
    ensures { result ≡ matched (matches_below w level m.now lo k)
        (visits_below (meets_test w) level m.now lo k) }
{
    if level == 0 {
        let matches = count_leaf(part_at(m, k), w);
        return WindowFound { matches, visits: 1 };
    }
    let mut so_far = WindowFound {
        matches: 0,
        visits: 1,
    };
    let mut low = lo;
    for &part in children_at(m, k) {
        if polygon_meets(m, part, w) {
            let below = count_below(m, level - 1, low, part, w);
            so_far.matches += below.matches;
            so_far.visits += below.visits;
        }
        low = part + 1;
    }
    so_far
}

// Writes the entries of a leaf's part that are in the window, from the at-th place of the list on;
// answers the next place.
fn write_leaf(p: &[u32], w: Rect, list: &mut [u32], at: usize) -> usize
    requires { LeafRoom p.now w list.old at }
    ensures { Listed list.old at (leaf_entries (inside_test w) p.now)
        list.new result }
{
    let mut next = at;
    for e in entries(p) {
        if w.has_cell(e.cell) {
            put_listed(list, next, e);
            next += 1;
        }
    }
    next
}

// Writes the matches below the node at part k, in depth-first order, from the at-th place of the list
// on; answers the next place.
pub fn write_below(
    m: &[u32],
    level: u32,
    lo: u32,
    k: u32,
    w: Rect,
    list: &mut [u32],
    at: usize,
) -> usize
    requires { WalkRoom level m.now lo k w list.old at }
    ensures { Listed list.old at (matches_below w level m.now lo k) list.new result }
{
    if level == 0 {
        return write_leaf(part_at(m, k), w, list, at);
    }
    let mut next = at;
    let mut low = lo;
    for &part in children_at(m, k) {
        if polygon_meets(m, part, w) {
            next = write_below(m, level - 1, low, part, w, list, next);
        }
        low = part + 1;
    }
    next
}

// The window query of the tree in a memory: its root is visited too, if its polygon shares a cell with the
// window. The list is written only if all matches fit.
fn window_in_tree(
    m: &[u32],
    level: u32,
    root: u32,
    w: Rect,
    list: &mut [u32],
) -> Result<WindowFound, Refusal>
    requires { TreeIn m.now level root }
    ensures { WindowDone m.now w list.old list.new result }
{
    if !polygon_meets(m, root, w) {
        return Ok(WindowFound {
            matches: 0,
            visits: 0,
        });
    }
    let found = count_below(m, level, 0, root, w);
    let matches = found.matches;
    if list.len() < LIST_WIDTH * (matches as usize) {
        return Err(Refusal::ShortList { matches });
    }
    write_below(m, level, 0, root, w, list, 0);
    Ok(found)
}

// Writes x, y and tag of each entry in the window to the list, in depth-first order, and leaves the rest
// of it; answers the matches and the nodes whose polygon shares a cell with the window.
pub fn window(m: &[u32], w: Rect, list: &mut [u32]) -> Result<WindowFound, Refusal>
    ensures { WindowCall m.now w list.old list.new result }
{
    window_known(m, false, w, list)
}

// The same; a memory that is known to read as an index is not tested.
#[tactic(auto, unfolding(answers::specs::Answers::window_answer, answers::specs::Answers::window_list, answers::specs::Answers::window_read, answers::specs::Answers::window_written))]
pub fn window_known(
    m: &[u32],
    known: bool,
    w: Rect,
    list: &mut [u32],
) -> Result<WindowFound, Refusal>
    requires { Known m.now known }
    ensures { WindowCall m.now w list.old list.new result }
{
    if !is_index_length(m) {
        return Err(Refusal::WrongLength);
    }
    if !w.is_valid() {
        return Err(Refusal::Invalid);
    }
    match open_known(m, known)? {
        None => Ok(WindowFound {
            matches: 0,
            visits: 0,
        }),
        Some(root) => window_in_tree(m, root.level, root.part, w, list),
    }
}
