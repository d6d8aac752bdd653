//! Tests of the store and of what is below it, and of several stores, by public calls; and the small callers in the
//! READMEs of these libraries. There is nothing else here.
#![tactic(auto)]

#[cfg(test)]
mod bytes;
#[cfg(test)]
mod callers;
#[cfg(test)]
mod divisions;
#[cfg(test)]
mod items;
#[cfg(test)]
mod keys;
#[cfg(test)]
mod stores;
