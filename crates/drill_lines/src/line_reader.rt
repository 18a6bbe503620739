//! A reader of the lines of a drill file, one after the other, in a profile.

ghost use Rattle.std.specs.Prelude.{◌≡◌, true, ℕ, List};

use crate::command::{DrillCommand, Repeat, Settings};
use crate::line::{read_line, trimmed_len};
use crate::repeat::repeat_line;
use crate::route::{Machine, Route, route_step};
use grid_units::{ItemFail, Profile, Reason};
use std::alloc::Global;

/// A reader of the lines of a drill file, which come one after the other.
#[derive(Drop)]
pub struct LineReader {
    alloc: Global,
    profile: Profile,
    route: Route,
}

impl LineReader {
    ghost use Rattle.std.specs.Prelude.{[]};
    ghost use Rattle.drill_lines.specs.declared.command.Settings.{Settings as TheSettings};
    ghost use Rattle.grid_units.specs.declared.profile.Profile.{Profile as TheProfile};
    ghost use Rattle.grid_units.specs.declared.profile.Profile.TheVariants as profile;
    ghost use Rattle.drill_lines.specs.declared.route.Machine.TheVariants as machine;
    ghost use Rattle.drill_lines.specs.declared.route.Route.TheVariants as route;
    ghost use Rattle.drill_lines.specs.Lines.{without_end_blanks};
    ghost use Rattle.drill_lines.specs.Inner.RouteSteps.{is_free_to_drill};
    ghost use Rattle.drill_lines.specs.LineReading.{HasReadLines, ReadsLine};
    ghost use Rattle.drill_lines.specs.Repeats.{repeat_in};

    /// A reader that has read no line.
    pub fn new(alloc: Global, profile: Profile) -> LineReader
        ensures { (settings : TheSettings) → HasReadLines result profile settings [] }
    {
        LineReader {
            alloc,
            profile,
            route: Route::Free(Machine::Drilling),
        }
    }

    /// Whether a hit may stand in the next line: no line of a route is due, and the machine drills.
    pub fn may_drill(&self) -> bool
        ensures { result ≡ is_free_to_drill self.now.route }
    {
        matches!(self.route, Route::Free(Machine::Drilling))
    }

    /// How the next line repeats a hit, or the first reason that refuses it; `None` for a line that repeats none. Only in the wide profile lines
    /// do, right after a hit and while the machine drills. Blanks at its end are dropped. The reader stays as it is: it has then read the line too.
    pub fn read_repeat(
        &self,
        after_hit: bool,
        settings: &Settings,
        line: &[u8],
    ) -> Option<Result<Repeat, Reason>>
        ensures { (profile : TheProfile) (earlier : List (List ℕ)) → HasReadLines self.now profile settings.now earlier → result ≡ repeat_in profile after_hit earlier settings.now (without_end_blanks line.now) }
    {
        match self.profile {
            Profile::Wide if after_hit && self.may_drill() => {
                repeat_line(settings, &line[..trimmed_len(line)])
            }
            Profile::Strict | Profile::Wide => None,
        }
    }

    /// The command that the next line spells, if it spells one. Blanks at its end are dropped.
    ///
    /// # Errors
    ///
    /// The first reason of the reading order ("docs/FORMATS.md", Drill lines; The wide profile), or `Memory`.
    pub fn read(
        &mut self,
        settings: Settings,
        line: &[u8],
    ) -> Result<Option<DrillCommand>, ItemFail>
        ensures { (profile : TheProfile) (earlier : List (List ℕ)) → HasReadLines self.old profile settings earlier → ReadsLine result self.new profile settings earlier (without_end_blanks line.now) }
    {
        match self.profile {
            Profile::Strict => read_line(self.alloc, settings, line),
            Profile::Wide => self.read_wide(settings, &line[..trimmed_len(line)]),
        }
    }

    /// The command that a line without blanks at its end spells in the wide profile, if it spells one.
    fn read_wide(
        &mut self,
        settings: Settings,
        line: &[u8],
    ) -> Result<Option<DrillCommand>, ItemFail>
        ensures { (earlier : List (List ℕ)) → HasReadLines self.old profile.Wide settings earlier → ReadsLine result self.new profile.Wide settings earlier line.now }
    {
        let (spelled, route) = route_step(self.alloc, self.route, settings, line)?;
        self.route = route;
        Ok(spelled)
    }
}
