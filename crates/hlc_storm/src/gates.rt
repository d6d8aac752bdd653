//! The gates of a storm's workers.

/// The gates of a storm's workers: one for all feeders, one for all readers, one for the vacuum.
#[derive(Drop)]
pub struct StormGates<F, R, V> {
    pub feeders: F,
    pub readers: R,
    pub vacuum: V,
}
