//! What a part of the input is played with.

/// The runtime, and its handle for threads and for waiting.
#[derive(Drop)]
pub(crate) struct Host<'a, R> {
    pub(crate) rt: &'a HostRuntime,
    pub(crate) threads: &'a R,
}
