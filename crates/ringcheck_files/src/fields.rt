//! Rows of tables: the fields of a flash or a contour, and of a hole.

ghost use Rattle.std.specs.Prelude.{decimal, ◌≡◌, ◌≤◌, ◌++◌, IfOk, map, length};
ghost use Rattle.ringcheck_files.specs.Rows.{NeedNoQuotes, NeedsNoQuotes, row};
ghost use Rattle.ringcheck_files.specs.Tables.{feature_fields, feature_word, hole_fields, reason_word, shape_word};

use crate::sides::{height_of, length_field, width_of};
use grid_units::Hole;
use itoa::Buffer;
use layer_features::{Feature, FeatureKind};
use manifest::table::Table;
use pad_shapes::{Pad, Why};
use std::alloc::AllocError;

fn shape_word(pad: &Pad) -> &'static str
    ensures text { result.now ≡ shape_word pad.now }
    ensures plain { NeedsNoQuotes result.now }
{
    match pad {
        Pad::Disc(_) => "disc",
        Pad::Rect(_) => "rect",
        Pad::Obround(_) => "obround",
    }
}

fn reason_word(why: Why) -> &'static str
    ensures text { result.now ≡ reason_word why }
    ensures plain { NeedsNoQuotes result.now }
{
    match why {
        Why::Macro => "macro",
        Why::Polygon => "polygon",
        Why::Holed => "holed",
        Why::Scaled => "scaled",
        Why::Turned => "turned",
    }
}

fn feature_word(what: &FeatureKind) -> &'static str
    ensures text { result.now ≡ feature_word what.now }
    ensures plain { NeedsNoQuotes result.now }
{
    match what {
        FeatureKind::Pad(pad) => shape_word(pad),
        FeatureKind::Shape(_, _) => "rounded",
        FeatureKind::Contour(_) => "contour",
        FeatureKind::Other(why) | FeatureKind::Macro(why) => reason_word(*why),
        FeatureKind::Clear => "clear",
        FeatureKind::Cleared => "cleared",
    }
}

/// A number as a field.
#[tactic(auto, using(crate::proofs::Plain::decimal_plain, crate::proofs::Plain::same_plain))]
fn number_field(number: u64, digits: &mut Buffer) -> &[u8]
    ensures text { result.now ≡ decimal number }
    ensures plain { NeedsNoQuotes result.now }
{
    digits.format(number).as_bytes()
}

/// The table with one more row, of fields that need no quotes.
pub(crate) fn with_row(table: Table, fields: &[&[u8]]) -> Result<Table, AllocError>
    requires plain { NeedNoQuotes (map (λ field. field.now) fields.now) }
    requires several { 2 ≤ length fields.now }
    ensures { IfOk result (λ more. more ≡ table ++ row (map (λ field. field.now) fields.now)) }
{
    table.with_row(fields)
}

/// The table with the row of a flash or a contour.
pub(crate) fn with_feature(
    table: Table,
    number: u64,
    feature: &Feature,
) -> Result<Table, AllocError>
    ensures { IfOk result (λ more. more ≡ table ++ row (feature_fields number feature.now)) }
{
    let mut digits = Buffer::new();
    let (x, y) = (length_field(feature.at.x()), length_field(feature.at.y()));
    let (width, height) = (width_of(&feature.what), height_of(&feature.what));
    with_row(
        table,
        &[
            number_field(number, &mut digits),
            feature_word(&feature.what).as_bytes(),
            x.as_str().as_bytes(),
            y.as_str().as_bytes(),
            width.as_str().as_bytes(),
            height.as_str().as_bytes(),
        ],
    )
}

/// The table with the row of a hole.
pub(crate) fn with_hole(table: Table, number: u64, hole: &Hole) -> Result<Table, AllocError>
    ensures { IfOk result (λ more. more ≡ table ++ row (hole_fields number hole.now)) }
{
    let mut digits = Buffer::new();
    let (from, to) = (hole.from(), hole.to());
    let (from_x, from_y) = (length_field(from.x()), length_field(from.y()));
    let (to_x, to_y) = (length_field(to.x()), length_field(to.y()));
    let diameter = length_field(2 * hole.radius());
    with_row(
        table,
        &[
            number_field(number, &mut digits),
            from_x.as_str().as_bytes(),
            from_y.as_str().as_bytes(),
            to_x.as_str().as_bytes(),
            to_y.as_str().as_bytes(),
            diameter.as_str().as_bytes(),
        ],
    )
}
