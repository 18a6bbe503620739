//! What lies in a hull, and hulls about others.

ghost use Rattle.std.specs.Prelude.{◌≡◌, ℕ, true, IfSome};
ghost use Rattle.grid_units.specs.Points.{GridPoint};
ghost use Rattle.board.specs.Hulls.{IsDeepIn, IsWiderThan};

use crate::hull::Hull;
use crate::roots::{apart_x, apart_y, length_rounded_up};
use grid_units::{Point, square, square_length};

/// The greatest half of a side, and the greatest radius, of a hull, in pm: five metres.
const GREATEST: u64 = 5_000_000_000_000;

impl Hull {
    /// Whether a point may lie so deep in it, in pm. `true` promises nothing.
    pub(crate) fn holds(&self, at: Point, reach: u64) -> bool
        ensures { IsDeepIn self.now at reach → result ≡ true }
    {
        if self.depth < reach || self.radius < reach {
            return false;
        }
        let dx = apart_x(at, self.centre);
        let dy = apart_y(at, self.centre);
        if self.half_x < dx + reach || self.half_y < dy + reach {
            return false;
        }
        let past_x = dx.saturating_sub(self.axis_x);
        let past_y = dy.saturating_sub(self.axis_y);
        square_length(past_x, past_y) <= square(self.radius - reach)
    }

    /// A hull about this one's middle that contains another one too. There is none where it would be wider than ten metres.
    pub(crate) fn around(&self, other: &Hull) -> Option<Hull>
        ensures this { IfSome result (λ hull. IsWiderThan hull self.now) }
        ensures other { IfSome result (λ hull. IsWiderThan hull other.now) }
    {
        let dx = apart_x(self.centre, other.centre);
        let dy = apart_y(self.centre, other.centre);
        let half_x = self.half_x.max(other.half_x + dx);
        let half_y = self.half_y.max(other.half_y + dy);
        let radius = self.radius.max(other.radius + length_rounded_up(dx, dy));
        if GREATEST < half_x || GREATEST < half_y || GREATEST < radius {
            return None;
        }
        Some(Hull {
            centre: self.centre,
            half_x,
            half_y,
            radius,
            axis_x: self.axis_x.max(other.axis_x),
            axis_y: self.axis_y.max(other.axis_y),
            depth: self.depth.max(other.depth),
        })
    }
}
