//! The JSON of a measure, of a report, of a refusal and of a certificate: one object on one line.
//!
//! All lengths are whole picometres (pm). Files, layers and holes are numbered from 1.
#![tactic(auto)]

mod arrays;
mod certificate;
mod certified;
mod drilling;
mod findings;
mod found;
mod measured;
mod printed;
mod refused;
mod strings;
mod values;

pub use certificate::{Certificate, FileDigest};
pub use certified::{Certified, read_certificate};
pub use found::ReportJson;
pub use measured::MeasureJson;
pub use refused::InputError;

/// The version of the format.
const VERSION: u8 = 3;
