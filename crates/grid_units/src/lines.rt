//! Lists of lines.

ghost use Rattle.std.specs.Prelude.{Some, ℕ, List};
ghost use Rattle.std.specs.Fmt.{DisplaysOnOk};
ghost use Rattle.std.specs.List.{flat_map};

use std::fmt;
use std::fmt::{Display, Formatter};

/// What is printed as a line of a page, with what all its lines share, such as the names of the files.
pub trait Line<C> {
    /// The bytes of the line on this page.
    ghost text: { C → Self → List ℕ };

    /// Writes the line.
    ///
    /// # Errors
    ///
    /// A `fmt::Error` where the writer fails.
    fn fmt_on<W: fmt::Write>(&self, page: &C, f: &mut Formatter<W>) -> fmt::Result
        ensures writes { DisplaysOnOk W.write_str_gives f.old result (Some (text page.now self.now)) f.new };
}

/// Lines of a page, one after the other.
#[derive(Drop)]
pub struct Lines<'a, C, T> {
    /// What the lines share.
    pub page: &'a C,
    /// The lines.
    pub lines: &'a [T],
}

impl<C, T: Line<C>> Display for Lines<'_, C, T> {
    ghost output = { λ all. Some (flat_map (T.text all.page.now) all.lines.now) };

    fn fmt<W: fmt::Write>(&self, f: &mut Formatter<W>) -> fmt::Result {
        for line in self.lines {
            line.fmt_on(self.page, f)?;
        }
        Ok(())
    }
}
