//! The fields of commands: the ranges of numbers, and the bytes of texts.

ghost use Rattle.std.specs.Prelude.{◌≡◌, ◌&&◌, not};
ghost use Rattle.std.specs.List.{list_all};
ghost use Rattle.std.specs.Option.{option_copied};
ghost use Rattle.gerber_commands.specs.Negative.{is_negative_comment};
ghost use Rattle.gerber_text.specs.Sayable.{is_text_byte, is_text, is_optional_text, is_nat, is_int, is_optional_int, is_dec, is_format, is_aperture_number, is_macro_name, are_parameters, is_template, is_operation, is_block, is_attribute};

use crate::{
    Action, AttributeKind, Boxed, Format, Pieces, Sizes, Standard, StepRepeat, Template, is_name,
    is_negative_comment, is_negative_image, is_plot, max_sizes, min_sizes, standard_template,
};
use grid_units::{Dec, Text};

fn is_text_byte(byte: u8) -> bool
    ensures { result ≡ is_text_byte byte }
{
    !(byte == b'*' || byte == b'%' || byte == b'\n' || byte == b'\r')
}

/// Whether an item can hold this text: it has no `*`, `%`, CR or LF.
pub(crate) fn is_text(text: &[u8]) -> bool
    ensures { result ≡ is_text text.now }
{
    text.iter().all(|byte| is_text_byte(*byte))
}

/// Whether an item can hold each of these texts.
fn are_texts(texts: &[Text]) -> bool
    ensures { result ≡ list_all is_text texts.now }
{
    texts.iter().all(|text| is_text(text.bytes()))
}

/// Whether this can be the text of a comment: it does not make the image negative.
pub(crate) fn is_comment(text: &Text) -> bool
    ensures { result ≡ (is_text text.now && not (is_negative_comment text.now)) }
{
    is_text(text.bytes()) && !is_negative_comment(text.bytes())
}

fn is_optional_text(text: &Option<Text>) -> bool
    ensures { result ≡ is_optional_text text.now }
{
    match text {
        Some(text) => is_text(text.bytes()),
        None => true,
    }
}

fn is_nat(number: u32) -> bool
    ensures { result ≡ is_nat number }
{
    number <= 2_147_483_647
}

fn is_int(number: i64) -> bool
    ensures { result ≡ is_int number }
{
    number.unsigned_abs() < 1_000_000_000_000
}

fn is_optional_int(number: Option<i64>) -> bool
    ensures { result ≡ is_optional_int number }
{
    match number {
        Some(number) => is_int(number),
        None => true,
    }
}

/// Whether a decimal is at most 999,999.99999999 from zero, as each one that is read is.
pub(crate) fn is_dec(dec: Dec) -> bool
    ensures { result ≡ is_dec dec }
{
    dec.units().unsigned_abs() <= 99_999_999_999_999
}

pub(crate) fn is_format(format: Format) -> bool
    ensures { result ≡ is_format format }
{
    format.whole <= 6 && format.decimals <= 6 && (format.whole >= 1 || format.decimals >= 1)
}

pub(crate) fn is_aperture_number(number: u32) -> bool
    ensures { result ≡ is_aperture_number number }
{
    10 <= number && is_nat(number)
}

/// Whether this can be the name of a macro: a name other than `C`, `R`, `O` and `P`.
fn is_macro_name(name: &[u8]) -> bool
    ensures { result ≡ is_macro_name name.now }
{
    is_name(name) && standard_template(name).is_none()
}

/// Whether this can be a macro: its name, and its pieces.
pub(crate) fn is_macro(name: &Text, pieces: &Boxed<Pieces>) -> bool
    ensures { result ≡ (is_macro_name name.now && list_all is_text pieces.now) }
{
    is_macro_name(name.bytes()) && are_texts(pieces.get().texts())
}

fn are_decs(sizes: &[Dec]) -> bool
    ensures { result ≡ list_all is_dec sizes.now }
{
    sizes.iter().all(|size| is_dec(*size))
}

fn are_parameters(aperture: Standard, sizes: &Sizes) -> bool
    ensures { result ≡ are_parameters aperture sizes.now }
{
    let sizes = sizes.as_slice();
    are_decs(sizes) && min_sizes(aperture) <= sizes.len() && sizes.len() <= max_sizes(aperture)
}

fn is_template(template: &Template) -> bool
    ensures { result ≡ is_template template.now }
{
    match template {
        Template::Standard(aperture, sizes) => are_parameters(*aperture, sizes),
        Template::Named(name, parameters) => {
            is_macro_name(name.bytes()) && is_optional_text(parameters)
        }
    }
}

/// Whether this can be the definition of an aperture.
pub(crate) fn is_definition(number: u32, template: &Boxed<Template>) -> bool
    ensures { result ≡ (is_aperture_number number && is_template template.now) }
{
    is_aperture_number(number) && is_template(template.get())
}

pub(crate) fn is_operation(
    action: Action,
    x: Option<i64>,
    y: Option<i64>,
    i: Option<i64>,
    j: Option<i64>,
) -> bool
    ensures { result ≡ is_operation action x y i j }
{
    let offsets = i.is_some() || j.is_some();
    is_optional_int(x)
        && is_optional_int(y)
        && is_optional_int(i)
        && is_optional_int(j)
        && (is_plot(action) || !offsets)
}

pub(crate) fn is_block(block: StepRepeat) -> bool
    ensures { result ≡ is_block block }
{
    is_nat(block.columns) && is_nat(block.rows) && is_dec(block.step_x) && is_dec(block.step_y)
}

pub(crate) fn is_attribute(kind: AttributeKind, text: &[u8]) -> bool
    ensures { result ≡ is_attribute kind text.now }
{
    match kind {
        AttributeKind::File => is_text(text) && !is_negative_image(text),
        AttributeKind::Aperture | AttributeKind::Object => is_text(text),
    }
}
