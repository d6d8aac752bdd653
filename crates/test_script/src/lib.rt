//! Tests of a whole run of a world, of scripts and certificates, and of streams that fail, by public calls; and the
//! small callers in the READMEs of these libraries. There is nothing else here.
#![tactic(auto)]

#[cfg(test)]
mod certified;
#[cfg(test)]
mod failures;
#[cfg(test)]
mod items;
#[cfg(test)]
mod run;
#[cfg(test)]
mod streams;
