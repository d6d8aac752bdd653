//! A test of a message as bytes, and the small callers in the READMEs of what writes and reads bytes. There is nothing
//! else here.
#![tactic(auto)]

#[cfg(test)]
mod encoded;
#[cfg(test)]
mod increments;
