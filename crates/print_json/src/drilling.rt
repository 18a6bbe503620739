//! The JSON of what drilling leaves of the rules.

ghost use Rattle.print_json.specs.Values.{drilling_value};

use crate::printed::{Text, Value};
use grid_units::Rules;
use print_text::Drilling;
use std::fmt;
use std::fmt::Formatter;

/// What drilling leaves of the rules: `{"off_pm":50000000,"wide_pm":25000000,"ring_pm":75000000,"gap_pm":100000000}`.
#[derive(Clone, Copy)]
pub(crate) struct DrillingJson<'a> {
    pub(crate) rules: &'a Rules,
    pub(crate) drilling: &'a Drilling,
}

impl Value for DrillingJson<'_> {
    ghost value = { λ it. drilling_value it.rules.now it.drilling.now };

    #[tactic(auto, unfolding(crate::specs::Values::drilling_value, json::specs::Print::escape_byte))]
    fn write<W: fmt::Write>(&self, f: &mut Formatter<W>) -> fmt::Result {
        let (off, wide) = (self.drilling.off(), self.drilling.wide());
        let ring = self.drilling.ring_left(self.rules);
        let gap = self.drilling.gap_left(self.rules);
        let (ring, gap) = (Text(&ring), Text(&gap));
        write!(
            f,
            r#"{{"off_pm":{off},"wide_pm":{wide},"ring_pm":{ring},"gap_pm":{gap}}}"#
        )
    }

    #[tactic(auto, unfolding(crate::specs::Values::drilling_value))]
    fn numbers(&self) {
        self.drilling.off().numbers();
        self.drilling.wide().numbers();
        self.drilling.ring_left(self.rules).numbers();
        self.drilling.gap_left(self.rules).numbers();
    }
}
