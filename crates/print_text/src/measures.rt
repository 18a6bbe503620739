//! The text of a measure.

ghost use Rattle.std.specs.Prelude.{Some};
ghost use Rattle.print_text.specs.MeasureLines.{measure_text};

use crate::measure_lines::{GapLineText, MeetsText, NoPage};
use grid_units::Lines;
use report::{GapLine, Meets, RingLine, UnitMistake};
use std::fmt;
use std::fmt::{Display, Formatter};

/// The text of a measure, without the lines of the files at its start. Lengths are printed in millimetres with nine decimals: the last
/// line is `meets ring=0.125000000 gap=0.250000000 held=0.125000000`.
#[derive(Clone, Copy)]
pub struct MeasureText<'a> {
    /// The lines of rings.
    pub rings: &'a [RingLine],
    /// The drill files whose coordinates seem to be off by a factor.
    pub scales: &'a [UnitMistake],
    /// The least gap, if there are two holes.
    pub gap: Option<GapLine>,
    /// The rules that the package meets.
    pub meets: Meets,
}

impl Display for MeasureText<'_> {
    ghost output = { λ text. Some (measure_text text.rings.now text.scales.now text.gap text.meets) };

    fn fmt<W: fmt::Write>(&self, f: &mut Formatter<W>) -> fmt::Result {
        let rings = Lines {
            page: &NoPage,
            lines: self.rings,
        };
        let scales = Lines {
            page: &NoPage,
            lines: self.scales,
        };
        match self.gap {
            Some(gap) => write!(
                f,
                "{rings}{scales}{}{}",
                GapLineText(gap),
                MeetsText(self.meets)
            ),
            None => write!(f, "{rings}{scales}{}", MeetsText(self.meets)),
        }
    }
}
