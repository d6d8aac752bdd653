//! Certificates: prints what a vacuum left, and checks that these are the fewest and the cheapest rows.

pub use hlc_certificate::{
    CheckEnd, check_input, printed_certificates_end_fewest, printed_certificates_show_fewest,
    put_certificate, run_check,
};
pub use hlc_text::printer::Printer;
pub use hlc_text::watched::Watched;
pub use hlc_witness::{NotShown, Shown, check};
