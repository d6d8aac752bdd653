//! A draft with its changes.
ghost use Rattle.std.specs.Prelude.{◌≡◌, ◌++◌, ◌+◌, [], OnOk};

use hlc_vacuum_draft::{Draft, append_list};
use hlc_values::NoMemory;
use hlc_witness::Witness;
use std::alloc::Global;

/// The draft of some columns, and the list of its changes.
#[derive(Drop)]
pub(crate) struct Piece {
    pub(crate) draft: Draft,
    pub(crate) witnesses: Vec<Witness>,
}

impl Piece {
    /// Returns the piece of no column.
    pub(crate) fn new(alloc: Global) -> Piece
        ensures keep { result.draft.keep ≡ [] }
        ensures changes { result.draft.changes ≡ 0 }
        ensures bytes { result.draft.bytes ≡ 0 }
        ensures witnesses { result.witnesses.items ≡ [] }
    {
        Piece {
            draft: Draft::new(alloc),
            witnesses: Vec::new(alloc),
        }
    }

    /// Adds the piece of the columns after these. Where this piece is of no column, nothing is copied.
    pub(crate) fn append(&mut self, other: Piece) -> Result<(), NoMemory>
        ensures keep { OnOk result (self.new.draft.keep
            ≡ self.old.draft.keep ++ other.draft.keep) }
        ensures changes { OnOk result (self.new.draft.changes
            ≡ self.old.draft.changes + other.draft.changes) }
        ensures bytes { OnOk result (self.new.draft.bytes ≡ self.old.draft.bytes + other.draft.bytes) }
        ensures witnesses { OnOk result (self.new.witnesses.items
            ≡ self.old.witnesses.items ++ other.witnesses.items) }
    {
        let Piece { draft, witnesses } = other;
        self.draft.append(draft)?;
        append_list(&mut self.witnesses, witnesses)
    }
}
