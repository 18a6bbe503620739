//! The copies of a contour in a step and repeat block.

ghost use Rattle.std.specs.Prelude.{◌≡◌, ◌≤◌, ◌^◌, ◌*ℤ◌, pos, [], map, unsigned_abs};
ghost use Rattle.std.specs.List.{cons_option, filter_map};
ghost use Rattle.layer_state.specs.Numbers.{dec_length};
ghost use Rattle.layer_state.specs.Flashes.{numbers_below};
ghost use Rattle.pad_shapes.specs.Placed.{shape_at};
ghost use Rattle.layer_features.specs.Features.{contour_feature};
ghost use Rattle.layer_state.specs.Placing.{copy_in, shapes_at};
ghost use Rattle.layer_features.specs.Kept.{AddsFeatures};

use crate::feature::{Feature, FeatureKind};
use crate::kept_features::KeptFeatures;
use gerber_text::StepRepeat;
use grid_units::{Dec, Unit};
use layer_state::dec_length;
use pad_shapes::{PlacedRounded, SharedRounded};
use std::alloc::AllocError;

/// By how much so many steps move a copy, in pm.
fn stepped(step: Dec, unit: Unit, count: u32) -> i128
    ensures value { result ≡ pos count *ℤ dec_length unit step }
    ensures bound { unsigned_abs result ≤ 2 ^ 104 }
{
    i128::from(count) * dec_length(step, unit)
}

/// Adds a contour at one copy, where it may lie there.
fn lay_copy(
    kept: &mut KeptFeatures,
    contour: &SharedRounded,
    unit: Unit,
    block: &StepRepeat,
    u: u32,
    v: u32,
) -> Result<(), AllocError>
    ensures kept { AddsFeatures result kept.old kept.new (map contour_feature (cons_option (shape_at contour.now (copy_in unit block.now u v)) [])) }
    ensures rows { kept.new.rows ≡ kept.old.rows }
{
    let x = stepped(block.step_x, unit, u);
    let y = stepped(block.step_y, unit, v);
    if let Some(pad) = PlacedRounded::new(contour, x, y)? {
        let at = pad.first();
        let what = FeatureKind::Contour(pad);
        kept.add(Feature { at, what })?;
    }
    Ok(())
}

/// Adds the copies of a contour in one column.
fn lay_column(
    kept: &mut KeptFeatures,
    contour: &SharedRounded,
    unit: Unit,
    block: &StepRepeat,
    u: u32,
) -> Result<(), AllocError>
    ensures kept { AddsFeatures result kept.old kept.new (map contour_feature (filter_map (shape_at contour.now) (map (copy_in unit block.now u) (numbers_below block.now.rows)))) }
    ensures rows { kept.new.rows ≡ kept.old.rows }
{
    for v in 0..block.rows {
        lay_copy(kept, contour, unit, block, u, v)?;
    }
    Ok(())
}

/// Adds the copies of a contour, column by column.
pub(crate) fn lay(
    kept: &mut KeptFeatures,
    contour: &SharedRounded,
    unit: Unit,
    block: &StepRepeat,
) -> Result<(), AllocError>
    ensures kept { AddsFeatures result kept.old kept.new (map contour_feature (shapes_at unit block.now contour.now)) }
    ensures rows { kept.new.rows ≡ kept.old.rows }
{
    for u in 0..block.columns {
        lay_column(kept, contour, unit, block, u)?;
    }
    Ok(())
}
