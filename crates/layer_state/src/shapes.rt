//! The shapes of apertures.

ghost use Rattle.std.specs.Prelude.{◌≡◌, ◌+◌, length, nat_le, sum_by, IfOk};
ghost use Rattle.std.specs.Option.{option_copied};
ghost use Rattle.layer_state.specs.Shapes.{by_macro, inner_primitive, primitives_shape, standard_shape, within_limits};
ghost use Rattle.macro_shapes.specs.Macros.{fields_of};
ghost use Rattle.macro_shapes.specs.Shapes.{shape_of};

use crate::aperture::{has_hole, size_at};
use gerber_text::{Pieces, Sizes, Standard};
use grid_units::{Dec, Text, Unit};
use macro_shapes::{
    Macro, Primitive, macro_shape as shape_of_primitives, read_macro, read_primitives,
    regular_polygon, turned_rectangle,
};
use pad_shapes::SharedRounded;
use std::alloc::{AllocError, Global};

/// The length of the longest macro that gives a shape, in bytes.
const MAX_MACRO_LEN: usize = 4_096;

/// The greatest number of an aperture that has the shape of a macro.
const MAX_SHAPE_NUMBER: u32 = 9_999;

/// The bytes of a text, if there is one.
pub(crate) fn bytes_of(text: &Option<Text>) -> Option<&[u8]>
    ensures { option_copied result ≡ text.now }
{
    Some(text.as_ref()?.bytes())
}

/// Whether a macro is no longer than the longest that gives a shape, counting the `*` after each piece.
fn is_short(texts: &[Text]) -> bool
    ensures { result ≡ nat_le (sum_by (λ piece. length piece + 1) texts.now) 4096 }
{
    let mut left = MAX_MACRO_LEN;
    for text in texts {
        let len = text.bytes().len();
        if left <= len {
            return false;
        }
        left -= len + 1;
    }
    true
}

/// The macro that an aperture of this number names, where both are within their limits.
pub(crate) fn within_limits(number: u32, pieces: Option<&Pieces>) -> Option<&Pieces>
    ensures { option_copied result ≡ within_limits number (option_copied pieces.entry) }
{
    let pieces = pieces?;
    if number <= MAX_SHAPE_NUMBER && is_short(pieces.texts()) {
        Some(pieces)
    } else {
        None
    }
}

/// The shape that a macro of these pieces makes, where a unit was named before it.
pub(crate) fn by_macro(
    alloc: Global,
    unit: Option<Unit>,
    pieces: Option<&Pieces>,
    parameters: Option<&[u8]>,
) -> Result<Option<SharedRounded>, AllocError>
    ensures { IfOk result (λ shape. shape ≡ by_macro unit (option_copied pieces.entry) (option_copied parameters.entry)) }
{
    match (unit, pieces) {
        (Some(unit), Some(pieces)) => macro_shape(alloc, unit, pieces, parameters),
        _ => Ok(None),
    }
}

/// The primitives of a macro with the parameters of an aperture, where each field has an exact value.
fn macro_fields(
    alloc: Global,
    pieces: &Pieces,
    parameters: Option<&[u8]>,
) -> Result<Option<Macro>, AllocError>
    ensures { IfOk result (λ answer. answer ≡ fields_of pieces.now (option_copied parameters.entry)) }
{
    read_macro(alloc, pieces.texts(), parameters)
}

/// The shape of some primitives, where they have one.
fn shape_of(alloc: Global, primitives: &[Primitive]) -> Result<Option<SharedRounded>, AllocError>
    ensures { IfOk result (λ answer. answer ≡ shape_of primitives.now) }
{
    match shape_of_primitives(alloc, primitives)? {
        Some(shape) => Ok(Some(SharedRounded::new(alloc, shape)?)),
        None => Ok(None),
    }
}

/// The shape of a macro with the parameters of an aperture, where it has one.
fn macro_shape(
    alloc: Global,
    unit: Unit,
    pieces: &Pieces,
    parameters: Option<&[u8]>,
) -> Result<Option<SharedRounded>, AllocError>
    ensures { IfOk result (λ answer. answer ≡ primitives_shape unit (fields_of pieces.now (option_copied parameters.entry))) }
{
    let Some(fields) = macro_fields(alloc, pieces, parameters)? else {
        return Ok(None);
    };
    match read_primitives(alloc, unit, fields.primitives())? {
        Some(primitives) => shape_of(alloc, primitives.as_slice()),
        None => Ok(None),
    }
}

/// The dark primitive inside of a standard aperture without a hole, however it is turned.
#[tactic(auto, unfolding(crate::specs::Shapes::inner_primitive))]
fn inner_primitive(unit: Unit, which: Standard, sizes: &Sizes) -> Option<Primitive>
    ensures { result ≡ inner_primitive unit which sizes.now }
{
    let one = Dec::from_units(100_000_000).unwrap();
    let zero = Dec::from_units(0).unwrap();
    let (first, second) = (size_at(sizes, 0), size_at(sizes, 1));
    match which {
        Standard::Polygon if !has_hole(sizes, 3) => {
            regular_polygon(unit, &[one, second, zero, zero, first, zero])
        }
        Standard::Rectangle | Standard::Obround if !has_hole(sizes, 2) => {
            turned_rectangle(unit, first, second, zero, zero)
        }
        _ => None,
    }
}

/// The shape of a standard aperture, where it has one and a unit was named before it.
pub(crate) fn standard_shape(
    alloc: Global,
    unit: Option<Unit>,
    which: Standard,
    sizes: &Sizes,
) -> Result<Option<SharedRounded>, AllocError>
    ensures { IfOk result (λ shape. shape ≡ standard_shape unit which sizes.now) }
{
    let Some(unit) = unit else {
        return Ok(None);
    };
    match inner_primitive(unit, which, sizes) {
        Some(primitive) => shape_of(alloc, &[primitive]),
        None => Ok(None),
    }
}
