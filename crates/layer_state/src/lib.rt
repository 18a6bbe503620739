//! The graphics state of a Gerber layer: the rules that make a list of commands legal, and the flashes that its commands make.
#![tactic(auto)]

mod aperture;
mod cached;
mod cached_values;
mod current;
mod flash;
mod flashes;
mod function;
mod grid;
mod length;
mod mirroring;
mod rules;
mod scan;
mod shapes;
mod size;
mod state;
mod tables;

pub use aperture::Aperture;
pub use current::{Current, ONE};
pub use flash::{Flash, FlashKeep, What};
pub use length::{dec_length, step_length};
pub use mirroring::{Mirroring, quarter_turns, turned_shape};
pub use scan::{Scan, Scanned};
pub use tables::{Apertures, Defined};
