//! The primitives of a macro as they are written, with the exact values of their fields.

ghost use Rattle.std.specs.Prelude.{◌≡◌, ◌≤◌, ◌↔◌, ◌++◌, ◌∷◌, ℕ, ℤ, List, Option, None, Some, option_map, IfOk, MatchOption, IsSomeAnd, []};
ghost use Rattle.std.specs.Option.{option_copied};
ghost use Rattle.macro_shapes.specs.Values.{Environment, lookup, with_value};
ghost use Rattle.macro_shapes.specs.Pieces.{IsMacro};
ghost use Rattle.macro_shapes.specs.Inner.Pieces.{value_of, field_value, all_values, piece_fields, on_piece, fields_from};
ghost use Rattle.macro_shapes.specs.declared.fields.Fields.{Fields};
ghost use Rattle.grid_units.specs.Rows.{split_by_if};

use crate::expression::{read, read_diameter};
use crate::piece::{Code, code_of, definition, is_comment, is_diameter};
use crate::variables::Variables;
use grid_units::{Dec, Text, split_first};
use std::alloc::{AllocError, Global};
use std::marker::Model;

/// The values of the fields of a primitive. Contracts see the list of the values, each in units of 10^-8.
#[derive(Drop)]
pub struct Values {
    values: Vec<Dec>,
}

impl Model for Values {
    ghost use Rattle.std.specs.Prelude.{List, ℤ};

    ghost Value = { List ℤ };

    ghost view = { λ v. v.values.items };
}

impl Values {
    ghost use Rattle.std.specs.Prelude.{◌≡◌};

    /// The values in order.
    pub fn as_slice(&self) -> &[Dec]
        ensures { result.now ≡ self.now }
    {
        self.values.as_slice()
    }
}

/// A primitive as it is written: its code, and the values of the fields after it.
#[derive(Drop)]
pub struct Fields {
    pub code: Code,
    pub values: Values,
}

/// The primitives of a macro, as they are written. Contracts see the list of them.
#[derive(Drop)]
pub struct Macro {
    primitives: Vec<Fields>,
}

impl Model for Macro {
    ghost use Rattle.std.specs.Prelude.{List};
    ghost use Rattle.macro_shapes.specs.declared.fields.Fields.{Fields};

    ghost Value = { List Fields };

    ghost view = { λ m. m.primitives.items };
}

impl Macro {
    ghost use Rattle.std.specs.Prelude.{◌≡◌};

    /// The primitives in order.
    pub fn primitives(&self) -> &[Fields]
        ensures { result.now ≡ self.now }
    {
        self.primitives.as_slice()
    }
}

/// The value of the field of this number.
fn field_value(code: Code, number: usize, text: &[u8], variables: &Variables) -> Option<Dec>
    ensures { result ≡ field_value (lookup variables.now) code number text.now }
{
    if is_diameter(code, number) {
        read_diameter(text, variables)
    } else {
        read(text, variables)
    }
}

/// The values of fields that are divided by commas. `None` where one has no value.
fn read_values(
    alloc: Global,
    code: Code,
    text: Option<&[u8]>,
    variables: &Variables,
) -> Result<Option<Values>, AllocError>
    ensures { IfOk result (λ answer. answer ≡ all_values (lookup variables.now) code 0 (split_by_if 44 (option_copied text.entry))) }
{
    let mut values = Vec::new(alloc);
    let mut left = text;
    while let Some(rest) = left {
        let (field, more) = split_first(b',', rest);
        let Some(value) = field_value(code, values.len(), field, variables) else {
            return Ok(None);
        };
        values.push(value)?;
        left = more;
    }
    Ok(Some(Values { values }))
}

/// The primitive that a piece spells. `None` where its code is not judged or a field has no value.
#[tactic(auto, unfolding(crate::specs::Inner::Pieces::piece_fields))]
fn read_primitive(
    alloc: Global,
    piece: &[u8],
    variables: &Variables,
) -> Result<Option<Fields>, AllocError>
    ensures { IfOk result (λ answer. answer ≡ piece_fields (lookup variables.now) piece.now) }
{
    let (code, rest) = split_first(b',', piece);
    let Some(code) = code_of(code) else {
        return Ok(None);
    };
    match read_values(alloc, code, rest, variables)? {
        Some(values) => Ok(Some(Fields { code, values })),
        None => Ok(None),
    }
}

/// Gives a variable the value of an expression. `None` where that has none.
fn define(variables: &mut Variables, number: usize, text: &[u8]) -> Result<Option<()>, AllocError>
    requires low { 1 ≤ number }
    requires high { number ≤ 999 }
    ensures { IfOk result (λ answer. MatchOption answer (value_of (lookup variables.old) text.now ≡ None)
        (λ _. IsSomeAnd (value_of (lookup variables.old) text.now) (λ v. (n : ℕ) → lookup variables.new n ≡ with_value (lookup variables.old) number v n))) }
{
    let Some(value) = read(text, variables) else {
        return Ok(None);
    };
    variables.set(number, value)?;
    Ok(Some(()))
}

/// Adds the primitive that a piece spells. `None` where its code is not judged or a field has no value.
fn add_primitive(
    alloc: Global,
    piece: &[u8],
    variables: &Variables,
    found: &mut Vec<Fields>,
) -> Result<Option<()>, AllocError>
    ensures { IfOk result (λ answer. MatchOption answer (piece_fields (lookup variables.now) piece.now ≡ None)
        (λ _. IsSomeAnd (piece_fields (lookup variables.now) piece.now) (λ f. found.new.items ≡ found.old.items ++ f ∷ []))) }
{
    match read_primitive(alloc, piece, variables)? {
        Some(fields) => {
            found.push(fields)?;
            Ok(Some(()))
        }
        None => Ok(None),
    }
}

/// Takes one more piece: a comment, a definition, or a primitive that is added. `None` where it has no exact values.
fn take_piece(
    alloc: Global,
    piece: &[u8],
    variables: &mut Variables,
    found: &mut Vec<Fields>,
) -> Result<Option<()>, AllocError>
    ensures { IfOk result (λ answer. MatchOption answer
        ((go : Environment → Option (List Fields)) → on_piece (lookup variables.old) piece.now go ≡ None)
        (λ _. (go : Environment → Option (List Fields)) → option_map (λ fs. found.old.items ++ fs) (on_piece (lookup variables.old) piece.now go)
        ≡ option_map (λ fs. found.new.items ++ fs) (go (lookup variables.new)))) }
{
    if is_comment(piece) {
        return Ok(Some(()));
    }
    match definition(piece) {
        Some((number, text)) => define(variables, number, text),
        None => add_primitive(alloc, piece, variables, found),
    }
}

/// The primitives that pieces spell from these variables on.
fn read_pieces(
    alloc: Global,
    pieces: &[Text],
    mut variables: Variables,
) -> Result<Option<Macro>, AllocError>
    ensures { IfOk result (λ answer. answer ≡ fields_from (lookup variables) pieces.now) }
{
    let mut primitives = Vec::new(alloc);
    for piece in pieces {
        if take_piece(alloc, piece.bytes(), &mut variables, &mut primitives)?.is_none() {
            return Ok(None);
        }
    }
    Ok(Some(Macro { primitives }))
}

/// The primitives of a macro with the parameters of an aperture, as they are written, with the exact values of their fields.
/// `None` where a piece is neither a comment nor a definition nor a primitive that is judged, or where a value is not exact or
/// not there: such a macro is not judged (Gerber format, Aperture macro AM).
///
/// # Errors
///
/// An `AllocError` where there is no memory for them.
pub fn read_macro(
    alloc: Global,
    pieces: &[Text],
    parameters: Option<&[u8]>,
) -> Result<Option<Macro>, AllocError>
    ensures { IfOk result (λ answer. (found : List Fields) → (answer ≡ Some found) ↔ IsMacro pieces.now (option_copied parameters.entry) found) }
{
    match Variables::of_parameters(alloc, parameters)? {
        Some(variables) => read_pieces(alloc, pieces, variables),
        None => Ok(None),
    }
}
