// The calls of the drawing exercise for C and Rust: a static library over the crate drawing.
//
// No call here has a `requires`: a bad argument is refused, and leaves every lent list as it was.
#![tactic(auto)]

mod exports;
