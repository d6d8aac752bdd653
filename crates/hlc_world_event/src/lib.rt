//! The events of a world: what can happen at its nodes and at its store.
#![tactic(auto)]

mod event;
mod exact;

pub use event::Event;
