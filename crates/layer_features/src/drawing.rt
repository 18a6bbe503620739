//! The first parts of what the commands so far draw that clear polarity has not taken away, where that is asked for.

ghost use Rattle.std.specs.Prelude.{◌≡◌, ◌++◌, [], OnOk, if◌then◌else◌};
ghost use Rattle.std.specs.List.{cons_option};
ghost use Rattle.layer_features.specs.Drawn.{drawn_by};
ghost use Rattle.layer_features.specs.Inner.Plotters.{pencil_state};
ghost use Rattle.layer_features.specs.Inner.States.{takes_part};

use crate::plotter::Pencil;
use gerber_text::Command;
use pad_shapes::Drawn;
use std::alloc::{AllocError, Global};

/// The most parts that a picture of a layer shows.
const MAX_PARTS: usize = 100_000;

/// What the commands so far draw that clear polarity has not taken away, in order, where that is asked for; and no more of it than tells that a
/// picture does not show it.
#[derive(Drop)]
pub(crate) struct Drawing {
    pub(crate) asked: bool,
    pub(crate) parts: Vec<Drawn>,
}

impl Drawing {
    /// Nothing is drawn.
    pub(crate) fn new(alloc: Global, asked: bool) -> Drawing
        ensures asked { result.asked ≡ asked }
        ensures parts { result.parts.items ≡ [] }
    {
        Drawing {
            asked,
            parts: Vec::new(alloc),
        }
    }

    /// Adds what one more command draws in the state that it meets.
    pub(crate) fn take(&mut self, pencil: &Pencil, command: &Command) -> Result<(), AllocError>
        ensures parts { OnOk result (self.new.parts.items ≡ self.old.parts.items ++ (if takes_part self.old then cons_option (drawn_by (pencil_state pencil.now) command.now) [] else [])) }
        ensures asked { self.new.asked ≡ self.old.asked }
    {
        if !self.asked || self.parts.len() > MAX_PARTS {
            return Ok(());
        }
        if let Some(part) = pencil.drawn(command)? {
            self.parts.push(part)?;
        }
        Ok(())
    }
}
