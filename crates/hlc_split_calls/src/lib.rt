//! What the calls of the C library that divide and join checkpoints do. `hlc_ffi` exports them.
#![tactic(auto)]

mod bytes;
pub mod merge;
pub mod split;
