//! Calls on a handle whose answers are numbers.
#![tactic(auto)]

pub mod opening;
pub mod outputs;
pub mod restorings;
pub mod savings;
pub mod views;
