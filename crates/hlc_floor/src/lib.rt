//! A board on which threads see the head of each node's link without a lock.
#![tactic(auto)]

mod board;
mod laws;
mod rule;

pub use board::{Board, Feeder, FloorPass};
pub use hlc_heads::{
    Accepted, Heads, JoinFault, MAX_INITIAL_NODES, MAX_NODES, NodesOutOfRange, Stamp,
    max_initial_nodes_are_64, max_nodes_are_1024,
};
pub use laws::board_is_fresh;
