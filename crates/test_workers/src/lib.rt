//! Tests of the workers and of storms, by their public calls. There is nothing else here.
#![tactic(auto)]

#[cfg(test)]
mod clients;
#[cfg(test)]
mod expected;
#[cfg(test)]
mod feeds;
#[cfg(test)]
mod joins;
#[cfg(test)]
mod newcomers;
#[cfg(test)]
mod rounds;
#[cfg(test)]
mod scenes;
#[cfg(test)]
mod stopped;
#[cfg(test)]
mod storms;
#[cfg(test)]
mod writers;
