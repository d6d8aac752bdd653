//! hlcstore for programs that embed a store. This crate re-exports the names that such a program needs, with their
//! contracts, so that the program lists no other crate.
//!
//! Here are the store (`Core`), what it takes and returns, and the nodes that write to it (`NodeCore`). `certificate`
//! prints and checks what a vacuum left, `bytes` has items and checkpoints as bytes, `log` a log that replicas share,
//! `ranges` several stores with one key space, and `threads` a store that several threads share.
#![tactic(auto)]

pub mod bytes;
pub mod certificate;
pub mod log;
pub mod ranges;
pub mod threads;

pub use hlc_clock::{ClockFault, ReadingTooLarge};
pub use hlc_core::{
    Accepted, Answers, AnswersBack, Body, BodyFault, Bytes, CertificateFault, Changes, Checkpoint,
    Core, CoreEvent, CoreFault, CoreReply, Item, ItemRef, JoinFault, LinkFault, Listing, NoMemory,
    NoNode, NoSnapshot, Numbers, Pair, Points, ReadView, Report, RestoreFault, Row, Sizes,
    Snapshot, SnapshotFault, Stamp, Versions, Witness, Witnesses, answers_stay,
    differences_lead_on, each_checkpoint_has_a_past,
};
pub use hlc_node::{
    Content, Listed, MAX_WRITES, Message, NodeCore, NodeFault, RefusedBatch, RefusedWrite, Write,
    Writes, Written, batch_fault,
};
pub use hlc_replicas::{
    a_state_goes_on_as_its_past, histories_from_states_are_faithful, lagging_replicas_answer_alike,
    places_of_one_log_can_meet, reports_raise_the_floor,
};
pub use hlc_vacuum_parts::{
    a_pass_leaves_no_more, parts_are_a_vacuum, vacuums_leave_a_certificate,
};
