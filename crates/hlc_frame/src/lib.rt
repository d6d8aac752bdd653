//! Bytes in a frame: a version, a length, a tag of the caller's, the body, and a SHA-256 digest of
//! all before it, so that damage is reported as damage.
#![tactic(auto)]

mod digest;
mod front;
mod laws;
mod open;
mod reader;
mod rest;
mod writer;

pub use front::{DIGEST_BYTES, FRONT_BYTES};
pub use hlc_wire::WireFault;
pub use laws::{blocks_are_the_frame, pieces_are_the_frame};
pub use open::{Opened, open_frame};
pub use reader::FrameReader;
pub use writer::FrameWriter;
