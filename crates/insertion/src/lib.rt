// Insertion: steps 1 to 4 of document 01.
#![tactic(auto)]

mod building;
mod descent;
mod first;
mod growing;
mod insert_call;
mod planning;

pub use insert_call::{insert, insert_known};
