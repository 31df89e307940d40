// One call of a list, made by the function of its kind.
ghost use Rattle.replay.specs.Coded.{index_call};
ghost use Rattle.replay.specs.Replies.{Replied};

use crate::coded::Call;
use answers::{
    Reply, clear_reply, empty_reply, insert_reply, nearest_reply, point_reply, remove_reply,
    window_reply,
};
use emptiness::is_empty;
use insertion::insert;
use nearest::nearest;
use queries::{point, window};
use removal::{clear, remove};

// Makes the call on the index m. An insertion is lent the list as its work area, a window query as its result list.
pub fn make_call(call: Call, m: &mut [u32], lent: &mut [u32]) -> Reply
    ensures { Replied (index_call call) m.old lent.old m.new lent.new result }
{
    match call {
        Call::Insert(entry) => insert_reply(insert(m, lent, entry)),
        Call::Remove(cell) => remove_reply(remove(m, cell)),
        Call::Clear => clear_reply(clear(m)),
        Call::Point(cell) => point_reply(point(m, cell)),
        Call::Window(rect) => window_reply(window(m, rect, lent)),
        Call::Nearest(cell) => nearest_reply(nearest(m, cell)),
        Call::IsEmpty(rect) => empty_reply(is_empty(m, rect)),
    }
}
