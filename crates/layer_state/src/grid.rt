//! The copies of a flashed point in a step and repeat block.

ghost use Rattle.std.specs.Prelude.{◌≡◌, ◌<◌, ◌≤◌, ◌^◌, ◌+ℤ◌, ◌*ℤ◌, ◌||◌, pos, unsigned_abs, false, length};
ghost use Rattle.std.specs.List.{list_any};
ghost use Rattle.grid_units.specs.Numbers.{is_too_far};
ghost use Rattle.grid_units.specs.Points.{max_coordinate};
ghost use Rattle.layer_state.specs.Flashes.{copies, copy_at};
ghost use Rattle.layer_state.specs.Rules.{is_far_point};
ghost use Rattle.layer_state.specs.Inner.CopyGrids.{IsBounded};

use grid_units::{Point, is_too_far};

/// A point with the counts and the steps of its copies. Coordinates and steps are in pm.
#[derive(Clone, Copy)]
pub struct CopyGrid {
    pub x: i128,
    pub y: i128,
    pub columns: u32,
    pub rows: u32,
    pub step_x: i128,
    pub step_y: i128,
}

impl CopyGrid {
    /// How many copies there are.
    pub fn count(&self) -> u64
        ensures { result ≡ length (copies self.now) }
    {
        u64::from(self.columns) * u64::from(self.rows)
    }

    /// Whether a copy is beyond 10 m along an axis. If any is, one in a corner of the block is.
    pub fn is_too_far(&self) -> bool
        requires { IsBounded self.now }
        ensures { result ≡ list_any is_far_point (copies self.now) }
    {
        if self.columns == 0 || self.rows == 0 {
            return false;
        }
        let last_x = stepped(self.x, self.step_x, self.columns - 1);
        let last_y = stepped(self.y, self.step_y, self.rows - 1);
        is_any_far(self.x, self.y, last_x, last_y)
    }

    /// The copy in a column and a row, both from 0.
    pub(crate) fn copy(&self, u: u32, v: u32) -> Point
        requires bounded { IsBounded self.now }
        requires near { list_any is_far_point (copies self.now) ≡ false }
        requires column { u < self.now.columns }
        requires row { v < self.now.rows }
        ensures { result ≡ copy_at self.now u v }
    {
        point(
            stepped(self.x, self.step_x, u),
            stepped(self.y, self.step_y, v),
        )
    }
}

/// The point of two coordinates of at most 10 m.
fn point(x: i128, y: i128) -> Point
    requires x { unsigned_abs x ≤ max_coordinate }
    requires y { unsigned_abs y ≤ max_coordinate }
    ensures { result ≡ record { x = x; y = y } }
{
    Point::new(x as i64, y as i64).unwrap()
}

/// The coordinate that is so many steps from a start.
fn stepped(start: i128, step: i128, count: u32) -> i128
    requires start { unsigned_abs start ≤ 2 ^ 98 }
    requires step { unsigned_abs step ≤ 2 ^ 71 }
    ensures { result ≡ start +ℤ pos count *ℤ step }
{
    start + i128::from(count) * step
}

fn is_any_far(first_x: i128, first_y: i128, last_x: i128, last_y: i128) -> bool
    ensures { result ≡ (is_too_far first_x || (is_too_far first_y || (is_too_far last_x || is_too_far last_y))) }
{
    is_too_far(first_x) || is_too_far(first_y) || is_too_far(last_x) || is_too_far(last_y)
}
