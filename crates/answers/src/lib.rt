// What the calls of the index answer.
#![tactic(auto)]

mod answer;
mod reply;

pub use answer::{
    EmptyFound, Inserted, LIST_WIDTH, NearestFound, PointFound, Refusal, WindowFound,
};
pub use reply::{
    Reply, clear_reply, empty_reply, insert_reply, nearest_reply, point_reply, remove_reply,
    window_reply,
};
