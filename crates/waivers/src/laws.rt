//! Laws of waivers. A call of one does nothing, and gives its clause.

ghost use Rattle.std.specs.Prelude.{◌≡◌, true, ℕ, List, Err};
ghost use Rattle.grid_units.specs.declared.fault.Fault.{Fault};
ghost use Rattle.waivers.specs.Reading.{is_waiver_reason, waivers};

/// A file of waivers is refused for one of the listed reasons alone.
pub fn waiver_reasons()
    ensures { (text : List ℕ) (f : Fault) → waivers text ≡ Err f → is_waiver_reason f.reason ≡ true }
{}
