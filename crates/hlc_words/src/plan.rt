//! The sizes of a storm.
ghost use Rattle.std.specs.Prelude.{◌≤◌};

/// The sizes of a storm: threads that write, read and vacuum one store concurrently.
#[derive(Clone, Copy, PartialEq, Eq, Debug)]
pub struct StormPlan {
    /// How many nodes there are: 1 to 64, each with a thread that writes and one that feeds.
    pub nodes: u16,
    /// How many writes each node makes: 0 to 1,000.
    pub writes: u64,
    /// How many keys they write in turn: 1 to 1,000.
    pub keys: u64,
    /// How many readers there are: 0 to 64, each in a thread of its own.
    pub readers: u16,
    ghost nodes_are: { (1 ≤ nodes) × (nodes ≤ 64) },
    ghost writes_are: { writes ≤ 1000 },
    ghost keys_are: { (1 ≤ keys) × (keys ≤ 1000) },
    ghost readers_are: { readers ≤ 64 },
}
