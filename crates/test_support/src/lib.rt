//! What the tests share: the items that they pass in.
#![tactic(auto)]

pub mod makers;
