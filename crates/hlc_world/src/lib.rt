//! The world: nodes with their clocks, items and messages, and the one store that they feed, event by event.
#![tactic(auto)]

mod content;
mod exact;
mod issuer;
mod laws;
mod refusal;
mod reply;
mod world;

pub use hlc_clock::Stamp;
pub use hlc_core::{Listing, NoMemory, Pair, Points, Report, Witness, Witnesses};
pub use hlc_node::Bytes;
pub use hlc_world_event::Event;
pub use laws::{
    items_go_by_number, no_clock_is_below_the_floor, open_snapshots_are_closed,
    stamps_follow_events, the_floor_is_complete, worlds_are_faithful,
};
pub use refusal::Refusal;
pub use reply::Reply;
pub use world::World;
