// The answer of each call as lines.
ghost use Rattle.std.specs.Prelude.{◌+◌, ◌*◌, ◌≤◌, length};
ghost use Rattle.answers.specs.Listing.{list_width};
ghost use Rattle.answers.specs.Numbers.{held_reply};
ghost use Rattle.commands.specs.Output.{Appended, HasRoom};
ghost use Rattle.commands.specs.AnswerText.{insert_text, remove_text, clear_text, held_text, point_text, entries_text, window_text, other_text, listed};

use crate::output::Output;
use answers::{Inserted, LIST_WIDTH, PointFound, Refusal, WindowFound};

// The line of an insertion: 0, the entries held and the cells that siblings removed, or its refusal.
#[tactic(auto, using(crate::proofs::TextLaws::few_bytes), unfolding(crate::specs::AnswerText::insert_text))]
pub fn put_inserted(out: &mut Output, answer: Result<Inserted, Refusal>)
    requires { HasRoom out.old 36 }
    ensures few { length (insert_text answer) ≤ 36 }
    ensures put { Appended out.old (insert_text answer) out.new }
{
    match answer {
        Ok(done) => out.line(b'I', &[0, u64::from(done.held), done.removed]),
        Err(refusal) => out.refusal(b'I', refusal.number()),
    }
}

// The line of a removal or a clearing: 0 and the entries held, or its refusal.
#[tactic(auto, using(crate::proofs::TextLaws::few_bytes))]
fn put_held(out: &mut Output, letter: u8, answer: Result<u32, Refusal>)
    requires { HasRoom out.old 24 }
    ensures few { length (held_text letter (held_reply answer)) ≤ 24 }
    ensures put { Appended out.old (held_text letter (held_reply answer)) out.new }
{
    match answer {
        Ok(held) => out.line(letter, &[0, u64::from(held)]),
        Err(refusal) => out.refusal(letter, refusal.number()),
    }
}

// The line of a removal.
#[tactic(auto, unfolding(crate::specs::AnswerText::remove_text))]
pub fn put_removed(out: &mut Output, answer: Result<u32, Refusal>)
    requires { HasRoom out.old 24 }
    ensures few { length (remove_text answer) ≤ 24 }
    ensures put { Appended out.old (remove_text answer) out.new }
{
    put_held(out, b'R', answer);
}

// The line of a clearing.
#[tactic(auto, unfolding(crate::specs::AnswerText::clear_text))]
pub fn put_cleared(out: &mut Output, answer: Result<u32, Refusal>)
    requires { HasRoom out.old 24 }
    ensures few { length (clear_text answer) ≤ 24 }
    ensures put { Appended out.old (clear_text answer) out.new }
{
    put_held(out, b'C', answer);
}

// The line of a point query: 1, visits and tag, or 0 and visits, or its refusal.
#[tactic(auto, using(crate::proofs::TextLaws::few_bytes), unfolding(crate::specs::AnswerText::point_text))]
pub fn put_point(out: &mut Output, answer: Result<PointFound, Refusal>)
    requires { HasRoom out.old 35 }
    ensures few { length (point_text answer) ≤ 35 }
    ensures put { Appended out.old (point_text answer) out.new }
{
    match answer {
        Ok(
            PointFound {
                tag: Some(tag),
                visits,
            },
        ) => out.line(b'P', &[1, u64::from(visits), u64::from(tag)]),
        Ok(PointFound { tag: None, visits }) => out.line(b'P', &[0, u64::from(visits)]),
        Err(refusal) => out.refusal(b'P', refusal.number()),
    }
}

// A line for each of the first n entries of a list.
#[tactic(auto, using(crate::proofs::TextLaws::line_three_few), unfolding(crate::specs::AnswerText::entries_text))]
fn put_entries(out: &mut Output, list: &[u32], n: usize)
    requires n_in_bounds { list_width * n ≤ length list.now }
    requires room { HasRoom out.old (35 * n) }
    ensures few { length (entries_text list.now n) ≤ 35 * n }
    ensures put { Appended out.old (entries_text list.now n) out.new }
{
    for i in 0..n {
        let j = LIST_WIDTH * i;
        let [x, y, tag] = [list[j], list[j + 1], list[j + 2]];
        out.line(b'E', &[u64::from(x), u64::from(y), u64::from(tag)]);
    }
}

// The line of a window query, and a line for each entry that it wrote to the list.
#[tactic(auto, using(crate::proofs::TextLaws::few_bytes), unfolding(crate::specs::AnswerText::entries_text))]
pub fn put_window(out: &mut Output, answer: Result<WindowFound, Refusal>, list: &[u32])
    requires r_in_bounds { list_width * listed answer ≤ length list.now }
    requires room { HasRoom out.old (24 + 12 * length list.now) }
    ensures few { length (window_text answer list.now) ≤ 24 + 12 * length list.now }
    ensures put { Appended out.old (window_text answer list.now) out.new }
{
    match answer {
        Ok(found) => {
            out.line(b'S', &[u64::from(found.matches), u64::from(found.visits)]);
            put_entries(out, list, found.matches as usize);
        }
        Err(refusal) => out.refusal(b'S', refusal.number()),
    }
}

// What is printed for a line that is no command.
#[tactic(auto, using(crate::proofs::TextLaws::append_more), unfolding(crate::specs::AnswerText::other_text))]
pub fn put_other(out: &mut Output)
    requires { HasRoom out.old 2 }
    ensures few { length other_text ≤ 2 }
    ensures put { Appended out.old other_text out.new }
{
    out.byte(b'?');
    out.byte(b'\n');
}
