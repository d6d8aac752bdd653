//! Tests of the shared store, by its public calls, and the small callers in the READMEs of `hlc_link`,
//! `hlc_floor`, `hlc_server` and `hlc_workers`. There is nothing else here.
#![tactic(auto)]

#[cfg(test)]
mod callers;
#[cfg(test)]
mod clients;
#[cfg(test)]
mod expected;
#[cfg(test)]
mod threads;
