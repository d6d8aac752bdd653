//! The links of all nodes, the floor of their heads, and the receipts of accepted items.
#![tactic(auto)]

mod accepted;
mod exact;
mod groups;
mod heads;

pub use accepted::Accepted;
pub use groups::lower;
pub use heads::{
    Heads, JoinFault, MAX_INITIAL_NODES, MAX_NODES, NodesOutOfRange, greater,
    max_initial_nodes_are_64, max_nodes_are_1024,
};
pub use hlc_clock::Stamp;
