//! Waivers: the findings of a report that a user accepts, each with the reason why.
//!
//! A file of waivers is CSV text. Its first record is `kind,layer,hole,and,has,why`, and each further record waives the findings that
//! have its first five fields, byte for byte. For each finding the same fields are printed, and the user fills in the reason.
#![tactic(auto)]

ghost use Rattle.std.specs.Prelude.{◌≡◌};
ghost use Rattle.grid_units.specs.Results.{Answers};
ghost use Rattle.waivers.specs.Reading.{waivers};

mod findings;
mod keys;
pub mod laws;
mod printed;
mod reading;
mod waiving;

use grid_units::Fail;
use manifest::Name;
use manifest::rows::read_records;
pub use printed::WaiverText;
use std::alloc::Global;
pub use waiving::{Waived, idle, reasons, waive};

/// A finding that is accepted, as a record of a file of waivers.
#[derive(Drop)]
pub struct Waiver {
    /// What is lacking: `ring` or `gap`.
    pub kind: Name,
    /// The name of the layer's file; empty for a gap.
    pub layer: Name,
    /// The hole: the name of its drill file, its diameter and where it is, in mm: `pth, 0.4 at 0,0`.
    pub hole: Name,
    /// The other hole of a gap; empty for a ring.
    pub and: Name,
    /// The ring or the gap of the finding in mm, or `none`.
    pub has: Name,
    /// The reason why it is accepted: 1 to 1,000 bytes.
    pub why: Name,
}

/// The waivers of a file, in order. A byte order mark at its start is dropped.
///
/// # Errors
///
/// The first refusal. Its place is the number of the record, the head being 1; its byte is 0. In this order:
/// [`Reason::BadManifest`] if the first record is missing or not `kind,layer,hole,and,has,why`, or if a record has not
/// six fields, each of UTF-8 without control bytes; [`Reason::BadRole`] if the kind is neither `ring` nor `gap`;
/// [`Reason::EmptyName`] if there is no reason; [`Reason::TooLong`] if the reason has more than 1,000 bytes. [`Fail::Memory`] when
/// memory runs out.
///
/// [`Reason::BadManifest`]: grid_units::Reason::BadManifest
/// [`Reason::BadRole`]: grid_units::Reason::BadRole
/// [`Reason::EmptyName`]: grid_units::Reason::EmptyName
/// [`Reason::TooLong`]: grid_units::Reason::TooLong
pub fn read_waivers(alloc: Global, bytes: &[u8]) -> Result<Vec<Waiver>, Fail>
    ensures exact { Answers (λ all. all.items) (λ answer. answer ≡ waivers bytes.now) result }
{
    let rows = read_records(alloc, bytes)?;
    reading::waivers_of(alloc, rows.as_slice())
}
