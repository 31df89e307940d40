// The line of a routing node, from the extents of its branches: only lines just behind an extreme coordinate of a
// branch are tried.
ghost use Rattle.std.specs.Prelude.{◌≡◌, true, ◌≤◌, IfSome};
ghost use Rattle.geometry.specs.Cells.{valid};
ghost use Rattle.tree.specs.Space.{left, right};
ghost use Rattle.plane.specs.Candidates.{extent_on, line_number, best_candidate};
ghost use Rattle.plane.specs.Fanout.{fanout};
ghost use Rattle.split_line.specs.Extents.{rect_extent, extents_in, ExtentList, TriedLine, counts_of, added_counts, counts_fit};
ghost use Rattle.split_line.specs.Tried.{precedes, tried, tried_behind};

use geometry::{Line, Rect};
use layout::FANOUT;

// What is added to l for the place of a line in y: those in x come before.
const Y_LINES: u32 = 65536;

// How many branches hold entries left of a line, right of it, and on both sides.
#[derive(Clone, Copy)]
struct Counts {
    lefts: u32,
    rights: u32,
    both: u32,
}

impl Counts {
    // With one more branch.
    #[tactic(auto, unfolding(crate::specs::Extents::added_counts))]
    fn add(self, before: bool, behind: bool) -> Counts
        requires lefts_bound { self.lefts ≤ 8 }
        requires rights_bound { self.rights ≤ 8 }
        requires both_bound { self.both ≤ 8 }
        ensures { result ≡ added_counts self before behind }
    {
        Counts {
            lefts: self.lefts + before as u32,
            rights: self.rights + behind as u32,
            both: self.both + (before && behind) as u32,
        }
    }

    // Whether each side receives 1 to 8 branches.
    #[tactic(auto, unfolding(crate::specs::Extents::counts_fit))]
    fn fit(self) -> bool
        ensures { result ≡ counts_fit self }
    {
        1 <= self.lefts && self.lefts <= FANOUT && 1 <= self.rights && self.rights <= FANOUT
    }
}

// Whether a branch with this extent holds entries left of the line.
fn is_left(r: Rect, line: Line) -> bool
    ensures { result ≡ extent_on (left line) (rect_extent r) }
{
    match line {
        Line::AtX(l) => r.llx < l,
        Line::AtY(l) => r.lly < l,
    }
}

// Whether a branch with this extent holds entries right of the line.
fn is_right(r: Rect, line: Line) -> bool
    requires { valid r ≡ true }
    ensures { result ≡ extent_on (right line) (rect_extent r) }
{
    match line {
        Line::AtX(l) => l < r.urx,
        Line::AtY(l) => l < r.ury,
    }
}

// The place of the line in document 01's order of lines.
fn number_of(line: Line) -> u32
    requires { line_number line ≤ 131072 }
    ensures { result ≡ line_number line }
{
    match line {
        Line::AtX(l) => l,
        Line::AtY(l) => Y_LINES + l,
    }
}

// A line, and how many branches hold entries on both its sides.
#[derive(Clone, Copy)]
struct Candidate {
    both: u32,
    line: Line,
}

impl Candidate {
    // Whether it is taken rather than the other: fewest branches on both sides, ties to x, then to the smaller line.
    #[tactic(auto, unfolding(crate::specs::Tried::precedes))]
    fn precedes(self, other: Candidate) -> bool
        requires own { line_number self.line ≤ 131072 }
        requires other { line_number other.line ≤ 131072 }
        ensures { result ≡ precedes self other }
    {
        (self.both, number_of(self.line)) < (other.both, number_of(other.line))
    }
}

// Counts the branches on the sides of the line.
fn count_sides(extents: &[Rect], line: Line) -> Counts
    requires { ExtentList extents.now }
    ensures { result ≡ counts_of (extents_in extents.now) line }
{
    let mut counts = Counts {
        lefts: 0,
        rights: 0,
        both: 0,
    };
    for &r in extents {
        counts = counts.add(is_left(r, line), is_right(r, line));
    }
    counts
}

// The best candidate so far after the line was tried.
fn try_line(extents: &[Rect], line: Line, best: Option<Candidate>) -> Option<Candidate>
    requires tried_line { TriedLine extents.now line }
    requires numbers_fit { IfSome best (λ b. line_number b.line ≤ 131072) }
    ensures value { result ≡ tried (extents_in extents.now) best line }
    ensures numbers_fit { IfSome result (λ b. line_number b.line ≤ 131072) }
{
    let counts = count_sides(extents, line);
    if !counts.fit() {
        return best;
    }
    let next = Candidate {
        both: counts.both,
        line,
    };
    match best {
        Some(first) if !next.precedes(first) => best,
        _ => Some(next),
    }
}

// The best candidate so far after the four lines behind the extremes of a branch with the extent r were tried.
fn try_branch(extents: &[Rect], r: Rect, best: Option<Candidate>) -> Option<Candidate>
    requires extent_list { ExtentList extents.now }
    requires r_value { valid r ≡ true }
    requires numbers_fit { IfSome best (λ b. line_number b.line ≤ 131072) }
    ensures value { result ≡ tried_behind extents.now r best }
    ensures numbers_fit { IfSome result (λ b. line_number b.line ≤ 131072) }
{
    let first = try_line(extents, Line::AtX(r.llx + 1), best);
    let second = try_line(extents, Line::AtX(r.urx), first);
    let third = try_line(extents, Line::AtY(r.lly + 1), second);
    try_line(extents, Line::AtY(r.ury), third)
}

// The fitting line with fewest branches on both sides, ties to x, then to the smaller line.
pub fn best_line(extents: &[Rect]) -> Line
    requires { ExtentList extents.now }
    ensures { result ≡ best_candidate fanout (extents_in extents.now) }
{
    let mut best = None;
    for &r in extents {
        best = try_branch(extents, r, best);
    }
    match best {
        Some(first) => first.line,
        // as the definition says: no caller asks where no line fits
        None => Line::AtX(0),
    }
}
