//! What a flash needs of an aperture.

ghost use Rattle.std.specs.Prelude.{◌≡◌, false, IfOk};
ghost use Rattle.layer_state.specs.Lookback.{size_at, has_hole, aperture_of};
ghost use Rattle.layer_state.specs.Rules.{has_bad_template, has_negative, lacks_size, is_vertex_count, same_standard, same_template};

use crate::size::{Diameter, Side};
use gerber_text::{Sizes, Standard, Template};
use grid_units::Dec;
use std::alloc::AllocError;

/// An aperture as a flash needs it: the sizes of a disc, a rectangle or an obround, and whether it has a hole.
#[derive(Clone, Copy)]
pub enum Aperture {
    Circle(Diameter, bool),
    Rectangle(Side, Side, bool),
    Obround(Side, Side, bool),
    Polygon,
    Macro,
}

/// What a flash needs of an aperture whose sizes are in range.
pub(crate) fn aperture_of(template: &Template) -> Aperture
    requires { has_bad_template template.now ≡ false }
    ensures { result ≡ aperture_of template.now }
{
    match template {
        Template::Standard(Standard::Circle, sizes) => Aperture::Circle(
            Diameter::new(size_at(sizes, 0)).unwrap(),
            has_hole(sizes, 1),
        ),
        Template::Standard(Standard::Rectangle, sizes) => Aperture::Rectangle(
            side(sizes, 0),
            side(sizes, 1),
            has_hole(sizes, 2),
        ),
        Template::Standard(Standard::Obround, sizes) => Aperture::Obround(
            side(sizes, 0),
            side(sizes, 1),
            has_hole(sizes, 2),
        ),
        Template::Standard(Standard::Polygon, _) => Aperture::Polygon,
        Template::Named(_, _) => Aperture::Macro,
    }
}

fn side(sizes: &Sizes, place: usize) -> Side
    requires { lacks_size sizes.now place ≡ false }
    ensures { result ≡ size_at sizes.now place }
{
    Side::new(size_at(sizes, place)).unwrap()
}

/// The size at a place, from 0; 0 where it is left out.
pub(crate) fn size_at(sizes: &Sizes, place: usize) -> Dec
    ensures { result ≡ size_at sizes.now place }
{
    match sizes.as_slice().get(place) {
        Some(size) => *size,
        None => Dec::from_units(0).unwrap(),
    }
}

/// Whether a size from this place on is above 0, which makes a hole.
pub(crate) fn has_hole(sizes: &Sizes, place: usize) -> bool
    ensures { result ≡ has_hole sizes.now place }
{
    sizes
        .as_slice()
        .iter()
        .skip(place)
        .any(|size| size.units() > 0)
}

/// Whether a size of a template is out of range. Sizes of a macro are not judged.
pub(crate) fn has_bad_template(template: &Template) -> bool
    ensures { result ≡ has_bad_template template.now }
{
    match template {
        Template::Standard(Standard::Circle, sizes) => {
            size_at(sizes, 0).units() < 0 || has_negative(sizes, 1)
        }
        Template::Standard(Standard::Rectangle | Standard::Obround, sizes) => {
            lacks_size(sizes, 0) || lacks_size(sizes, 1) || has_negative(sizes, 2)
        }
        Template::Standard(Standard::Polygon, sizes) => {
            lacks_size(sizes, 0) || !is_vertex_count(size_at(sizes, 1)) || has_negative(sizes, 3)
        }
        Template::Named(_, _) => false,
    }
}

/// Whether the size at a place is not above 0, or left out.
fn lacks_size(sizes: &Sizes, place: usize) -> bool
    ensures { result ≡ lacks_size sizes.now place }
{
    size_at(sizes, place).units() <= 0
}

/// Whether a size from this place on is below 0.
fn has_negative(sizes: &Sizes, place: usize) -> bool
    ensures { result ≡ has_negative sizes.now place }
{
    sizes
        .as_slice()
        .iter()
        .skip(place)
        .any(|size| size.units() < 0)
}

/// Whether a number of vertices is a whole number from 3 to 12.
fn is_vertex_count(size: Dec) -> bool
    ensures { result ≡ is_vertex_count size }
{
    let units = size.units();
    300_000_000 <= units && units <= 1_200_000_000 && units.unsigned_abs() % 100_000_000 == 0
}

/// Whether templates are equal, however their sizes are written.
pub(crate) fn same_template(first: &Template, second: &Template) -> bool
    ensures { result ≡ same_template first.now second.now }
{
    match (first, second) {
        (Template::Standard(which, sizes), Template::Standard(other, others)) => {
            same_standard(*which, *other) && sizes.as_slice() == others.as_slice()
        }
        (Template::Named(name, parameters), Template::Named(other, others)) => {
            name == other && parameters == others
        }
        _ => false,
    }
}

fn same_standard(first: Standard, second: Standard) -> bool
    ensures { result ≡ same_standard first second }
{
    matches!(
        (first, second),
        (Standard::Circle, Standard::Circle)
            | (Standard::Rectangle, Standard::Rectangle)
            | (Standard::Obround, Standard::Obround)
            | (Standard::Polygon, Standard::Polygon)
    )
}

/// A copy of a template.
pub(crate) fn copy_of_template(template: &Template) -> Result<Template, AllocError>
    ensures { IfOk result (λ copy. copy ≡ template.now) }
{
    match template {
        Template::Standard(which, sizes) => Ok(Template::Standard(*which, copy_of_sizes(sizes))),
        Template::Named(name, None) => Ok(Template::Named(name.copy()?, None)),
        Template::Named(name, Some(parameters)) => {
            Ok(Template::Named(name.copy()?, Some(parameters.copy()?)))
        }
    }
}

fn copy_of_sizes(sizes: &Sizes) -> Sizes
    ensures { result ≡ sizes.now }
{
    let mut copy = Sizes::new();
    for size in sizes.as_slice() {
        copy.push(*size);
    }
    copy
}
