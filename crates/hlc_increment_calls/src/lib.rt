//! What the calls of the C library that save and apply increments do. `hlc_ffi` exports them.
#![tactic(auto)]

pub mod apply;
pub mod increment;
