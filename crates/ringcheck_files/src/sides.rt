//! How wide and how high pads are, and lengths as fields.

ghost use Rattle.std.specs.Prelude.{◌≡◌, ◌≤◌, ◌<◌, ◌*◌, ◌^◌, ◌++◌, ◌∷◌, pos, unsigned_abs, decimal};
ghost use Rattle.arrayvec.specs.ArrayString.{array_string_len};
ghost use Rattle.grid_units.specs.Points.{abs_diff};
ghost use Rattle.grid_units.specs.Spellings.{millimetres, places};
ghost use Rattle.pad_shapes.specs.Rounded.{rounded_bottom, rounded_left, rounded_right, rounded_top};
ghost use Rattle.ringcheck_files.specs.Rows.{NeedsNoQuotes};
ghost use Rattle.ringcheck_files.specs.Tables.{height_of, width_of};

use arrayvec::ArrayString;
use grid_units::write_mm;
use itoa::Buffer;
use layer_features::FeatureKind;
use pad_shapes::PlacedRounded;

/// How many pm are a millimetre.
const MILLIMETRE: u64 = 1_000_000_000;

/// The width and the height of a rounded polygon in pm: those of its box.
fn rounded_sides(pad: &PlacedRounded) -> (u64, u64)
    ensures width { result.0 ≡ abs_diff (rounded_right pad.now) (rounded_left pad.now) }
    ensures height { result.1 ≡ abs_diff (rounded_top pad.now) (rounded_bottom pad.now) }
    ensures within { (result.0 ≤ 3 * 10 ^ 13) × (result.1 ≤ 3 * 10 ^ 13) }
{
    let bounds = pad.bounds();
    let width = bounds.right.abs_diff(bounds.left);
    (width, bounds.top.abs_diff(bounds.bottom))
}

/// A length in pm of at most 10 m as a field: millimetres with nine decimals, such as `0.650000000`.
#[tactic(auto, using(crate::proofs::Plain::short_plain, crate::proofs::Plain::same_plain))]
pub(crate) fn length_field(length: i64) -> ArrayString<16>
    requires { unsigned_abs length ≤ 10 ^ 13 }
    ensures text { result.bytes ≡ millimetres length }
    ensures plain { NeedsNoQuotes result.bytes }
{
    write_mm(length)
}

/// A number of at most five digits.
fn whole_text(number: u64) -> ArrayString<16>
    requires { number < 10 ^ 5 }
    ensures text { result.bytes ≡ decimal number }
    ensures short { array_string_len result ≤ 5 }
{
    let mut text = ArrayString::new();
    let mut digits = Buffer::new();
    text.push_str(digits.format(number));
    text
}

/// Appends a point and the nine decimals of so many pm, less than a millimetre.
fn push_decimals(text: &mut ArrayString<16>, below: u64)
    requires below { below < 10 ^ 9 }
    requires room { array_string_len text.old ≤ 5 }
    ensures { text.new.bytes ≡ text.old.bytes ++ 46 ∷ places 9 below }
{
    let spelled = write_mm(below as i64);
    if let Some(decimals) = spelled.as_str().strip_prefix('0') {
        text.push_str(decimals);
    }
}

/// A side of a pad in pm as a field, which may be 30 m long.
fn side_field(side: u64) -> ArrayString<16>
    requires { side ≤ 3 * 10 ^ 13 }
    ensures text { result.bytes ≡ millimetres (pos side) }
    ensures plain { NeedsNoQuotes result.bytes }
{
    let mut text = whole_text(side / MILLIMETRE);
    push_decimals(&mut text, side % MILLIMETRE);
    text
}

/// The field of the width of a flash or a contour: empty where it is no pad.
pub(crate) fn width_of(what: &FeatureKind) -> ArrayString<16>
    ensures text { result.bytes ≡ width_of what.now }
    ensures plain { NeedsNoQuotes result.bytes }
{
    match what {
        FeatureKind::Pad(pad) => side_field(pad.width() as u64),
        FeatureKind::Shape(pad, _) | FeatureKind::Contour(pad) => side_field(rounded_sides(pad).0),
        FeatureKind::Other(_) | FeatureKind::Macro(_) | FeatureKind::Clear | FeatureKind::Cleared =>
            ArrayString::new(),
    }
}

/// The field of the height of a flash or a contour: empty where it is no pad.
pub(crate) fn height_of(what: &FeatureKind) -> ArrayString<16>
    ensures text { result.bytes ≡ height_of what.now }
    ensures plain { NeedsNoQuotes result.bytes }
{
    match what {
        FeatureKind::Pad(pad) => side_field(pad.height() as u64),
        FeatureKind::Shape(pad, _) | FeatureKind::Contour(pad) => side_field(rounded_sides(pad).1),
        FeatureKind::Other(_) | FeatureKind::Macro(_) | FeatureKind::Clear | FeatureKind::Cleared =>
            ArrayString::new(),
    }
}
