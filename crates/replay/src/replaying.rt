// A list of calls, made one after another.
ghost use Rattle.std.specs.Prelude.{length};
ghost use Rattle.replay.specs.Coded.{Fits};
ghost use Rattle.replay.specs.Replay.{MadeOne, Replayed};

use crate::calling::make_call;
use crate::coded::{call_at, fits};
use crate::replies::put_reply;

// Makes the i-th call, lends it its part of the list, and stores its answer.
fn make_one(calls: &[u32], i: usize, m: &mut [u32], lent: &mut [u32], answers: &mut [u64])
    requires { Fits calls.now i (length lent.old) (length answers.old) }
    ensures { MadeOne calls.now i m.old lent.old answers.old
        m.new lent.new answers.new }
{
    let k = 7 * i;
    let from = calls[k + 1] as usize;
    let to = calls[k + 2] as usize;
    let call = call_at(calls, i);
    let reply = make_call(call, m, &mut lent[from..to]);
    put_reply(answers, i, reply);
}

// Makes the calls of a coded list on the index m, each handed the memory that the last one left, stores their
// answers, and answers how many were made: it ends at the first that cannot be made.
pub fn replay(calls: &[u32], m: &mut [u32], lent: &mut [u32], answers: &mut [u64]) -> usize
    ensures { Replayed calls.now m.old lent.old answers.old result
        m.new lent.new answers.new }
{
    let mut i: usize = 0;
    // a while: whether one more call can be made is known by its test alone
    while fits(calls, i, lent.len(), answers.len()) {
        make_one(calls, i, m, lent, answers);
        i += 1;
    }
    i
}
