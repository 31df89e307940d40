// Document 01's number and values of each answer.
#![tactic(auto, unfolding(crate::specs::Numbers::with_seven))]

ghost use Rattle.std.specs.Prelude.{[], ◌∷◌, ◌≡◌};
ghost use Rattle.answers.specs.Numbers.{refusal_number, seven_of, with_seven, insert_reply, held_reply, remove_reply, clear_reply, point_reply, window_reply, nearest_reply, empty_reply};

use crate::answer::{EmptyFound, Inserted, NearestFound, PointFound, Refusal, WindowFound};

// The number of the answer, 0 where the call accepts, and its values; 0 in the places behind them.
#[derive(Clone, Copy, Debug, PartialEq, Eq)]
pub struct Reply {
    pub number: u32,
    pub values: [u64; 7],
}

// A reply with up to three values.
fn short_reply(number: u32, first: u32, second: u32, third: u32) -> Reply
    ensures { result ≡ record { number = number; values = seven_of (first ∷ second ∷ third ∷ []) } }
{
    let values = [first as u64, second as u64, third as u64, 0, 0, 0, 0];
    Reply { number, values }
}

// An accepted call, with its values.
fn accepts(first: u32, second: u32, third: u32) -> Reply
    ensures { result ≡ record { number = 0; values = seven_of (first ∷ second ∷ third ∷ []) } }
{
    short_reply(0, first, second, third)
}

// A refused call, without values.
fn refuses(refusal: Refusal) -> Reply
    ensures { result ≡ record { number = refusal_number refusal; values = seven_of [] } }
{
    short_reply(refusal.number(), 0, 0, 0)
}

pub fn insert_reply(answer: Result<Inserted, Refusal>) -> Reply
    ensures { result ≡ with_seven (insert_reply answer) }
{
    match answer {
        Ok(done) => {
            let values = [done.held as u64, done.removed, 0, 0, 0, 0, 0];
            Reply { number: 0, values }
        }
        Err(refusal) => refuses(refusal),
    }
}

// A removal or a clearing: the entries held.
fn held_reply(answer: Result<u32, Refusal>) -> Reply
    ensures { result ≡ with_seven (held_reply answer) }
{
    match answer {
        Ok(held) => accepts(held, 0, 0),
        Err(refusal) => refuses(refusal),
    }
}

pub fn remove_reply(answer: Result<u32, Refusal>) -> Reply
    ensures { result ≡ with_seven (remove_reply answer) }
{
    held_reply(answer)
}

pub fn clear_reply(answer: Result<u32, Refusal>) -> Reply
    ensures { result ≡ with_seven (clear_reply answer) }
{
    held_reply(answer)
}

pub fn point_reply(answer: Result<PointFound, Refusal>) -> Reply
    ensures { result ≡ with_seven (point_reply answer) }
{
    match answer {
        Ok(found) => match found.tag {
            Some(tag) => accepts(1, found.visits, tag),
            None => accepts(0, found.visits, 0),
        },
        Err(refusal) => refuses(refusal),
    }
}

pub fn window_reply(answer: Result<WindowFound, Refusal>) -> Reply
    ensures { result ≡ with_seven (window_reply answer) }
{
    match answer {
        Ok(found) => accepts(found.matches, found.visits, 0),
        Err(refusal) => match refusal {
            Refusal::ShortList { matches } => short_reply(refusal.number(), matches, 0, 0),
            _ => refuses(refusal),
        },
    }
}

pub fn nearest_reply(answer: Result<NearestFound, Refusal>) -> Reply
    ensures { result ≡ with_seven (nearest_reply answer) }
{
    match answer {
        Ok(found) => {
            let values = [
                found.x as u64,
                found.y as u64,
                found.tag as u64,
                found.distance,
                found.visits as u64,
                0,
                0,
            ];
            Reply { number: 0, values }
        }
        Err(refusal) => refuses(refusal),
    }
}

pub fn empty_reply(answer: Result<EmptyFound, Refusal>) -> Reply
    ensures { result ≡ with_seven (empty_reply answer) }
{
    match answer {
        Ok(found) => accepts(found.empty as u32, found.visits, 0),
        Err(refusal) => refuses(refusal),
    }
}
