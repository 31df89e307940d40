// Answers as eight numbers each: document 01's number and up to seven values, 0 where there are fewer.
ghost use Rattle.std.specs.Prelude.{◌≡◌, ◌+◌, ◌*◌, ◌≤◌, length};
ghost use Rattle.replay.specs.Replies.{put_reply};

use answers::Reply;

// Writes the reply to the i-th place of the answers.
pub fn put_reply(answers: &mut [u64], i: usize, reply: Reply)
    requires { 8 * i + 8 ≤ length answers.old }
    ensures { answers.new ≡ put_reply answers.old i reply }
{
    let k = 8 * i;
    answers[k] = u64::from(reply.number);
    answers[k + 1..k + 8].copy_from_slice(&reply.values);
}
