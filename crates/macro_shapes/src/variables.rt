//! The variables of a macro.

ghost use Rattle.std.specs.Prelude.{◌≡◌, ◌≤◌, ◌-◌, ℕ, None, if◌then◌else◌, length, get_or, OnOk, OnErr, IfOk, option_map};
ghost use Rattle.std.specs.Option.{option_copied};
ghost use Rattle.macro_shapes.specs.Values.{lookup, with_value};
ghost use Rattle.grid_units.specs.Numbers.{is_digits, value};
ghost use Rattle.macro_shapes.specs.Inner.Pieces.{all_decimals};
ghost use Rattle.grid_units.specs.Rows.{split_by};

use grid_units::numbers::{capped_value, is_digits};
use grid_units::{Dec, split_first};
use std::alloc::{AllocError, Global};
use std::marker::Model;

/// The largest number of a variable.
pub const MAX_VARIABLES: usize = 999;

/// The values of the variables `$1` to `$999` that have one. Contracts see the list of the values, that of `$1` first.
#[derive(Drop)]
pub struct Variables {
    values: Vec<Option<Dec>>,
}

impl Model for Variables {
    ghost use Rattle.std.specs.Prelude.{List, ℤ, Option, ◌≤◌, length};

    ghost Value = { List (Option ℤ) };

    ghost view = { λ v. v.values.items };

    ghost invariant = { λ v. length v.values.items ≤ 999 };
}

impl Variables {
    ghost use Rattle.std.specs.Prelude.{◌≡◌, ◌≤◌, ℕ, [], OnOk, OnErr, IfOk};
    ghost use Rattle.std.specs.Option.{option_copied};
    ghost use Rattle.macro_shapes.specs.Values.{lookup, with_value, operand_value};
    ghost use Rattle.macro_shapes.specs.Inner.Pieces.{parameters_of};

    /// No variable has a value.
    pub fn new(alloc: Global) -> Variables
        ensures { result ≡ [] }
    {
        Variables {
            values: Vec::new(alloc),
        }
    }

    /// The value of the variable with this number, or `None` where it has none.
    pub fn get(&self, number: u64) -> Option<Dec>
        ensures { result ≡ lookup self.now number }
    {
        value_at(self.values.as_slice(), number)
    }

    /// Gives the variable with this number, from 1 to 999, a value.
    ///
    /// # Errors
    ///
    /// An `AllocError` where there is no memory for it: no value changes.
    pub fn set(&mut self, number: usize, value: Dec) -> Result<(), AllocError>
        requires low { 1 ≤ number }
        requires high { number ≤ 999 }
        ensures ok { OnOk result ((other : ℕ) → lookup self.new other ≡ with_value (lookup self.old) number value other) }
        ensures err { OnErr result ((other : ℕ) → lookup self.new other ≡ lookup self.old other) }
    {
        put(&mut self.values, number, value)
    }

    /// The variables that the parameters of an aperture give a value. `None` where one is no decimal, or they are more than 999.
    #[tactic(auto, unfolding(crate::specs::Inner::Pieces::parameters_of))]
    pub(crate) fn of_parameters(
        alloc: Global,
        parameters: Option<&[u8]>,
    ) -> Result<Option<Variables>, AllocError>
        ensures { IfOk result (λ answer. answer ≡ parameters_of (option_copied parameters.entry)) }
    {
        let Some(text) = parameters else {
            return Ok(Some(Variables::new(alloc)));
        };
        let Some(values) = read_decimals(alloc, text)? else {
            return Ok(None);
        };
        if MAX_VARIABLES < values.len() {
            return Ok(None);
        }
        Ok(Some(Variables { values }))
    }

    /// The value of an operand: of a variable, as `$1`, or of a decimal, as `0.5`.
    #[tactic(auto, unfolding(crate::specs::Values::operand_value))]
    pub(crate) fn operand(&self, text: &[u8]) -> Option<Dec>
        ensures { result ≡ operand_value (lookup self.now) text.now }
    {
        match text {
            [] => None,
            [b'$', digits @ ..] => numbered(self.values.as_slice(), digits),
            _ => Dec::read(text).ok(),
        }
    }
}

/// The value of the variable with this number.
fn value_at(values: &[Option<Dec>], number: u64) -> Option<Dec>
    ensures { result ≡ lookup values.now number }
{
    if number == 0 || (values.len() as u64) < number {
        return None;
    }
    values[number as usize - 1]
}

/// The value of the variable with a number of these digits.
#[tactic(auto, using(crate::proofs::VariablesLemmas::lookup_capped))]
fn numbered(values: &[Option<Dec>], digits: &[u8]) -> Option<Dec>
    requires { length values.now ≤ 999 }
    ensures { result ≡ (if is_digits digits.now then lookup values.now (value digits.now) else None) }
{
    if is_digits(digits) {
        value_at(values, capped_value(digits, 1_000))
    } else {
        None
    }
}

/// Makes a list of values longer, with variables that have none.
fn pad(values: &mut Vec<Option<Dec>>, len: usize) -> Result<(), AllocError>
    requires old { length values.old.items ≤ 999 }
    requires new { len ≤ 999 }
    ensures same { (k : ℕ) → get_or values.new.items k None ≡ get_or values.old.items k None }
    ensures few { length values.new.items ≤ 999 }
    ensures long { OnOk result (len ≤ length values.new.items) }
{
    while values.len() < len {
        values.push(None)?;
    }
    Ok(())
}

/// Gives the variable with this number a value.
fn put(values: &mut Vec<Option<Dec>>, number: usize, value: Dec) -> Result<(), AllocError>
    requires low { 1 ≤ number }
    requires high { number ≤ 999 }
    requires few { length values.old.items ≤ 999 }
    ensures ok { OnOk result ((other : ℕ) → lookup values.new.items other ≡ with_value (lookup values.old.items) number value other) }
    ensures err { OnErr result ((other : ℕ) → lookup values.new.items other ≡ lookup values.old.items other) }
    ensures few { length values.new.items ≤ 999 }
{
    pad(values, number)?;
    values[number - 1] = Some(value);
    Ok(())
}
/// The values of decimals that are divided by `X`. `None` where one is no decimal.
fn read_decimals(alloc: Global, text: &[u8]) -> Result<Option<Vec<Option<Dec>>>, AllocError>
    ensures { IfOk result (λ answer. option_map (λ v. v.items) answer ≡ all_decimals (split_by 88 text.now)) }
{
    let mut values = Vec::new(alloc);
    let mut left = Some(text);
    while let Some(rest) = left {
        let (part, more) = split_first(b'X', rest);
        let Ok(value) = Dec::read(part) else {
            return Ok(None);
        };
        values.push(Some(value))?;
        left = more;
    }
    Ok(Some(values))
}
