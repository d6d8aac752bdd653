//! Certificates as text: the lines of points, rows and witnesses, and a whole check from bytes to one line. It depends
//! on no store.
#![tactic(auto)]

mod certificate;
mod check;
mod check_line;
mod exact;
mod laws;
mod print;

pub use check::{CheckEnd, check_input, run_check};
pub use check_line::{CheckLine, read_check_line};
pub use hlc_witness::{Row, Stamp, Witness};
pub use laws::{
    one_answer_for_an_input, one_certificate_for_lines, printed_certificates_are_read,
    printed_certificates_end_fewest, printed_certificates_show_fewest,
};
pub use print::{put_certificate, put_witnesses};
