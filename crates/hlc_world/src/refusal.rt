//! Why an event does not take place.
ghost use Rattle.std.specs.Prelude.{◌≡◌};
ghost use Rattle.hlc_world.specs.Faults.{refusal_code, refusal_word};

use hlc_core::CoreFault;
use hlc_node::NodeFault;
use hlc_values::NoMemory;
use std::error::Error;
use std::fmt;

/// Why an event does not take place. Out of memory is `NoMemory`, and an unknown node is `NoNode`, whether the world or
/// its store found it.
#[derive(Clone, Copy, PartialEq, Eq, Debug)]
pub enum Refusal {
    /// No node has that number, or a new world is not of 1 to 64 nodes.
    NoNode,
    /// The node refuses the event, for this reason.
    Node(NodeFault),
    /// No message of that number was sent.
    NoMessage,
    /// The node has issued no item of that number.
    NoItem,
    /// The store refuses what the event asks of it, for this reason. The reason is never that a stamp does not rise,
    /// since the stamps of a world's nodes rise.
    Store(CoreFault),
    /// Out of memory.
    NoMemory,
}

impl Refusal {
    /// Returns its number in outputs: 1 to 15, 26 or 27.
    pub fn code(self) -> u32
        ensures { result ≡ refusal_code self }
    {
        match self {
            Refusal::NoNode => 1,
            Refusal::Node(fault) => fault.code(),
            Refusal::NoMessage => 4,
            Refusal::NoItem => 5,
            Refusal::Store(fault) => fault.code(),
            Refusal::NoMemory => 15,
        }
    }

    /// Returns the number, or the stamp as a word, that comes with the refusal, or 0.
    pub fn word(self) -> u64
        ensures { result ≡ refusal_word self }
    {
        match self {
            Refusal::Node(fault) => fault.word(),
            Refusal::Store(fault) => fault.word(),
            Refusal::NoNode | Refusal::NoMessage | Refusal::NoItem | Refusal::NoMemory => 0,
        }
    }
}

impl fmt::Display for Refusal {
    ghost use Rattle.std.specs.Prelude.{Some};
    ghost use Rattle.hlc_world.specs.Faults.{refusal_text};

    ghost output = { λ refusal. Some (refusal_text refusal) };

    fn fmt<W: fmt::Write>(&self, f: &mut fmt::Formatter<W>) -> fmt::Result {
        match self {
            Refusal::NoNode => f.write_str("no such node, or not 1 to 64 nodes"),
            Refusal::Node(fault) => write!(f, "{fault}"),
            Refusal::NoMessage => f.write_str("no such message was sent"),
            Refusal::NoItem => f.write_str("the node has issued no such item"),
            Refusal::Store(fault) => write!(f, "{fault}"),
            Refusal::NoMemory => f.write_str("out of memory"),
        }
    }
}

impl Error for Refusal {}

impl From<NodeFault> for Refusal {
    ghost use Rattle.hlc_world.specs.declared.refusal.Refusal.TheVariants.{Node};

    ghost from_gives = { λ fault refusal. refusal ≡ Node fault };

    fn from(fault: NodeFault) -> Refusal {
        Refusal::Node(fault)
    }
}

impl From<CoreFault> for Refusal {
    ghost use Rattle.hlc_world.specs.Expected.{of_core};

    ghost from_gives = { λ fault refusal. refusal ≡ of_core fault };

    fn from(fault: CoreFault) -> Refusal {
        match fault {
            CoreFault::NoNode => Refusal::NoNode,
            CoreFault::NoMemory => Refusal::NoMemory,
            fault => Refusal::Store(fault),
        }
    }
}

impl From<NoMemory> for Refusal {
    ghost use Rattle.hlc_world.specs.declared.refusal.Refusal.TheVariants.{NoMemory};

    ghost from_gives = { λ _ refusal. refusal ≡ NoMemory };

    fn from(_fault: NoMemory) -> Refusal {
        Refusal::NoMemory
    }
}
