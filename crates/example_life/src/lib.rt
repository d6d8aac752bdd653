//! The life of a store, step by step, for callers to copy: from bytes through two ranges into one store again, and what
//! keeps its answers elsewhere. Each function says in its contract what it leaves, in the words of the rows; each is
//! proved from the contracts and laws of the calls alone.
#![tactic(auto)]

pub mod begin;
pub mod feed;
pub mod joined;
pub mod life;
pub mod replicas;
pub mod stopped;
