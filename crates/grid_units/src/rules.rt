//! The rules for the holes of a board: the ring and the gap that they need, and the profile in which it is read.

ghost use Rattle.std.specs.Prelude.{◌≡◌, pos, ◌≤◌, ◌↔◌, IsOk, IfOk, IfErr, unsigned_abs};
ghost use Rattle.grid_units.specs.Holes.{AreRules};
ghost use Rattle.grid_units.specs.Points.{max_coordinate};
ghost use Rattle.grid_units.specs.declared.profile.Profile.TheVariants.{Strict};

use crate::fault::Reason;
use crate::points::MAX_COORDINATE;
use crate::profile::Profile;
use std::marker::Model;

/// The copper that must stand round a plated hole (the annular ring), and the gap that must stand
/// between two holes, in pm; and the profile in which the board is read.
#[derive(Clone, Copy)]
pub struct Rules {
    ring: u64,
    gap: u64,
    profile: Profile,
}

impl Model for Rules {
    ghost use Rattle.std.specs.Prelude.{◌≤◌};
    ghost use Rattle.grid_units.specs.Points.{max_coordinate};
    ghost use Rattle.grid_units.specs.Holes.{GridRules};

    ghost Value = { GridRules };

    ghost view = { λ r. record { ring = r.ring; gap = r.gap; profile = r.profile } };

    ghost invariant = { λ r. (r.ring ≤ max_coordinate) × ((1 ≤ r.gap) × (r.gap ≤ max_coordinate)) };

    ghost inverse = { λ r. record { ring = r.ring; gap = r.gap; profile = r.profile } };
}

impl Rules {
    /// The rules of this ring and this gap in pm, in the strict profile.
    ///
    /// # Errors
    ///
    /// [`Reason::BadRule`] where the ring is below 0, the gap is below 1, or either is above 10 m.
    pub fn new(ring: i64, gap: i64) -> Result<Rules, Reason>
        ensures valid { IsOk result ↔ (AreRules ring gap) }
        ensures value { IfOk result (λ r. r ≡ record { ring = unsigned_abs ring; gap = unsigned_abs gap; profile = Strict }) }
        ensures error { IfErr result (λ reason. reason ≡ Reason.BadRule) }
    {
        let ring_fits = 0 <= ring && ring.unsigned_abs() <= MAX_COORDINATE;
        let gap_fits = 1 <= gap && gap.unsigned_abs() <= MAX_COORDINATE;
        if ring_fits && gap_fits {
            Ok(Rules {
                ring: ring.unsigned_abs(),
                gap: gap.unsigned_abs(),
                profile: Profile::Strict,
            })
        } else {
            Err(Reason::BadRule)
        }
    }

    /// The same ring and gap in another profile.
    pub fn in_profile(self, profile: Profile) -> Rules
        ensures { result ≡ record { ring = self.ring; gap = self.gap; profile = profile } }
    {
        Rules { profile, ..self }
    }

    /// The profile in which the board is read.
    pub fn profile(&self) -> Profile
        ensures { result ≡ self.now.profile }
    {
        self.profile
    }

    /// The ring in pm, from 0 to 10 m.
    pub fn ring(&self) -> i64
        ensures value { result ≡ pos self.now.ring }
        ensures in_range { self.now.ring ≤ max_coordinate }
    {
        self.ring as i64
    }

    /// The gap in pm, from 1 to 10 m.
    pub fn gap(&self) -> i64
        ensures value { result ≡ pos self.now.gap }
        ensures in_range { (1 ≤ self.now.gap) × (self.now.gap ≤ max_coordinate) }
    {
        self.gap as i64
    }
}
