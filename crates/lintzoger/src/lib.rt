// The calls for C and Rust.
#![tactic(auto)]

mod exports;
