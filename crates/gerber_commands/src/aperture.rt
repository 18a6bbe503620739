//! Definitions of apertures and of macros, as `ADD10C,0.5` and `AMDONUT*1,1,0.5,0,0`.

ghost use Rattle.std.specs.Prelude.{◌≡◌, ◌≤◌, ◌<◌, ◌+◌, ◌==◌, ◌||◌, ◌&&◌, nat_le, length, map, count_by, IfOk};
ghost use Rattle.std.specs.List.{list_all};
ghost use Rattle.std.specs.Option.{option_copied};
ghost use Rattle.grid_units.specs.Numbers.{is_number_char, parse_decimal};
ghost use Rattle.grid_units.specs.Results.{Gives};
ghost use Rattle.gerber_commands.specs.declared.command.Template.TheVariants.{Named};
ghost use Rattle.gerber_commands.specs.Inner.Parameters.{with_size};
ghost use Rattle.gerber_commands.specs.Pieces.{is_name_start, is_name_byte, is_name, standard_template, min_sizes, max_sizes, all_values, are_sizes, sizes_of, aperture_number, define_standard, define_named, define_template, before_comma, after_comma, define, definition, macro_definition};
ghost use Rattle.grid_units.specs.Rows.{split_by, split_by_if};

use crate::command::{Boxed, Command, ItemCommands, Pieces, Sizes, Standard, Template};
use crate::number::read_nat;
use grid_units::numbers::{digit_run_len, is_digit, is_number_char, len_before};
use grid_units::{Dec, ItemFail, Reason, Text, both, split_first};
use std::alloc::{AllocError, Global};

/// Whether a name may begin with this byte.
fn is_name_start(byte: u8) -> bool
    ensures { result ≡ is_name_start byte }
{
    byte.is_ascii_alphabetic() || byte == b'_' || byte == b'.' || byte == b'$'
}

fn are_name_bytes(bytes: &[u8]) -> bool
    ensures { result ≡ list_all is_name_byte bytes.now }
{
    bytes.iter().all(|byte| is_name_start(*byte) || is_digit(*byte) || *byte == b'-')
}

/// Whether these bytes are a name: 1 to 127, the first a letter, `_`, `.` or `$`, further ones also digits or
/// `-` (Gerber format, Names).
#[tactic(auto, unfolding(crate::specs::Pieces::is_name))]
pub fn is_name(name: &[u8]) -> bool
    ensures { result ≡ is_name name.now }
{
    match name {
        [] => false,
        [first, rest @ ..] => is_name_start(*first) && are_name_bytes(rest) && rest.len() < 127,
    }
}

/// The standard aperture of a name, where it is one of `C`, `R`, `O`, `P`.
pub fn standard_template(name: &[u8]) -> Option<Standard>
    ensures { result ≡ standard_template name.now }
{
    match name {
        b"C" => Some(Standard::Circle),
        b"R" => Some(Standard::Rectangle),
        b"O" => Some(Standard::Obround),
        b"P" => Some(Standard::Polygon),
        _ => None,
    }
}

/// The least number of parameters of a standard aperture.
pub fn min_sizes(aperture: Standard) -> usize
    ensures { result ≡ min_sizes aperture }
{
    match aperture {
        Standard::Circle => 1,
        _ => 2,
    }
}

/// The largest number of parameters of a standard aperture, at most 5.
pub fn max_sizes(aperture: Standard) -> usize
    ensures value { result ≡ max_sizes aperture }
    ensures few { result ≤ 5 }
{
    match aperture {
        Standard::Circle => 3,
        Standard::Rectangle | Standard::Obround => 4,
        Standard::Polygon => 5,
    }
}

fn are_size_bytes(text: &[u8]) -> bool
    ensures { result ≡ list_all (λ b. is_number_char b || (b == 88)) text.now }
{
    text.iter()
        .all(|byte| is_number_char(*byte) || *byte == b'X')
}

/// Whether an aperture takes one parameter more than there are divisions.
fn accepts_sizes(aperture: Standard, separators: usize) -> bool
    ensures { result ≡ (nat_le (min_sizes aperture) (separators + 1) && nat_le (separators + 1) (max_sizes aperture)) }
{
    separators >= min_sizes(aperture) - 1 && separators < max_sizes(aperture)
}

/// How many `X` divide a text.
fn separators(text: &[u8]) -> usize
    ensures { result ≡ count_by (λ b. b == 88) text.now }
{
    text.iter().filter(|byte| **byte == b'X').count()
}

/// Whether these are as many parameters as the aperture takes, each a run.
fn are_sizes(aperture: Standard, text: &[u8]) -> bool
    ensures { result ≡ are_sizes aperture (split_by 88 text.now) }
{
    are_size_bytes(text) && accepts_sizes(aperture, separators(text))
}

/// Adds one more parameter. It is read even after one that is refused, since its reason may come first in the reading order.
fn add_size(sizes: Result<Sizes, Reason>, run: &[u8]) -> Result<Sizes, Reason>
    requires { IfOk sizes (λ s. length s < 5) }
    ensures { result ≡ with_size sizes (parse_decimal run.now) }
{
    match both(sizes, Dec::read(run)) {
        Ok((mut sizes, size)) => {
            sizes.push(size);
            Ok(sizes)
        }
        Err(reason) => Err(reason),
    }
}

/// The parameters of a text, divided at each `X`.
fn read_sizes(text: &[u8]) -> Result<Sizes, Reason>
    requires { length (split_by 88 text.now) ≤ 5 }
    ensures { result ≡ all_values (map parse_decimal (split_by 88 text.now)) }
{
    let mut sizes = Ok(Sizes::new());
    let mut left = Some(text);
    while let Some(rest) = left {
        let (run, more) = split_first(b'X', rest);
        sizes = add_size(sizes, run);
        left = more;
    }
    sizes
}

/// The parameters of a standard aperture, or `BadWord` where their number is wrong or one is no run.
#[tactic(auto, unfolding(crate::specs::Pieces::sizes_of))]
fn sizes_of(aperture: Standard, parameters: Option<&[u8]>) -> Result<Sizes, Reason>
    ensures { result ≡ sizes_of aperture (option_copied parameters.entry) }
{
    match parameters {
        Some(text) if are_sizes(aperture, text) => read_sizes(text),
        _ => Err(Reason::BadWord),
    }
}

/// The number of an aperture, at least 10, else `BadNumber`.
#[tactic(auto, unfolding(crate::specs::Pieces::aperture_number))]
fn aperture_number(digits: &[u8]) -> Result<u32, Reason>
    ensures { result ≡ aperture_number digits.now }
{
    let number = read_nat(digits)?;
    if number < 10 {
        Err(Reason::BadNumber)
    } else {
        Ok(number)
    }
}

/// Defines an aperture of a standard template.
#[tactic(auto, unfolding(crate::specs::Pieces::define_standard))]
fn define_standard(
    alloc: Global,
    digits: &[u8],
    aperture: Standard,
    parameters: Option<&[u8]>,
) -> Result<ItemCommands, ItemFail>
    ensures { Gives result (define_standard digits.now aperture (option_copied parameters.entry)) }
{
    let (number, sizes) = both(aperture_number(digits), sizes_of(aperture, parameters))?;
    let template = Boxed::new(alloc, Template::Standard(aperture, sizes))?;
    Ok(ItemCommands::one(Command::Define { number, template }))
}

/// The template of a macro with this name, and the text of its parameters.
fn named_template(
    alloc: Global,
    name: &[u8],
    parameters: Option<&[u8]>,
) -> Result<Template, AllocError>
    ensures { IfOk result (λ template. template ≡ Named name.now (option_copied parameters.entry)) }
{
    let name = Text::from_slice(alloc, name)?;
    match parameters {
        Some(text) => Ok(Template::Named(name, Some(Text::from_slice(alloc, text)?))),
        None => Ok(Template::Named(name, None)),
    }
}

/// Defines an aperture of a macro.
#[tactic(auto, unfolding(crate::specs::Pieces::define_named))]
fn define_named(
    alloc: Global,
    digits: &[u8],
    name: &[u8],
    parameters: Option<&[u8]>,
) -> Result<ItemCommands, ItemFail>
    ensures { Gives result (define_named digits.now name.now (option_copied parameters.entry)) }
{
    let number = aperture_number(digits)?;
    let template = Boxed::new(alloc, named_template(alloc, name, parameters)?)?;
    Ok(ItemCommands::one(Command::Define { number, template }))
}

/// Defines a standard aperture where the name is one of `C`, `R`, `O`, `P`, else one of the macro with this name.
fn define_template(
    alloc: Global,
    digits: &[u8],
    name: &[u8],
    parameters: Option<&[u8]>,
) -> Result<ItemCommands, ItemFail>
    ensures { Gives result (define_template digits.now name.now (standard_template name.now) (option_copied parameters.entry)) }
{
    match standard_template(name) {
        Some(aperture) => define_standard(alloc, digits, aperture, parameters),
        None => define_named(alloc, digits, name, parameters),
    }
}

/// What follows the first comma, if there is one.
fn after_comma(text: &[u8]) -> Option<&[u8]>
    ensures { option_copied result ≡ after_comma text.now }
{
    let at = len_before(b',', text);
    if at < text.len() {
        Some(&text[at + 1..])
    } else {
        None
    }
}

/// What stands before the first comma, or all where there is none.
fn before_comma(text: &[u8]) -> &[u8]
    ensures { result.now ≡ before_comma text.now }
{
    text.split_at(len_before(b',', text)).0
}

/// Defines an aperture by the digits of its number, and by its template with parameters.
#[tactic(auto, unfolding(crate::specs::Pieces::define))]
fn define(alloc: Global, digits: &[u8], text: &[u8]) -> Result<ItemCommands, ItemFail>
    ensures { Gives result (define digits.now text.now) }
{
    let name = before_comma(text);
    if is_name(name) {
        define_template(alloc, digits, name, after_comma(text))
    } else {
        Err(ItemFail::Refused(Reason::BadWord))
    }
}

/// Reads what follows `ADD`: a number and a template, as `10C,0.5`.
#[tactic(auto, unfolding(crate::specs::Pieces::definition))]
pub(crate) fn read_define(alloc: Global, text: &[u8]) -> Result<ItemCommands, ItemFail>
    ensures { Gives result (definition text.now) }
{
    let (digits, rest) = text.split_at(digit_run_len(text));
    define(alloc, digits, rest)
}

/// Copies the pieces of an optional text, each without its `*`.
fn copy_pieces(alloc: Global, text: Option<&[u8]>) -> Result<Pieces, AllocError>
    ensures { IfOk result (λ pieces. pieces ≡ split_by_if 42 (option_copied text.entry)) }
{
    let mut texts = Vec::new(alloc);
    let mut left = text;
    while let Some(rest) = left {
        let (piece, more) = split_first(b'*', rest);
        texts.push(Text::from_slice(alloc, piece)?)?;
        left = more;
    }
    Ok(Pieces::new(texts))
}

/// Reads what follows `AM`: a name and further pieces.
#[tactic(auto, unfolding(crate::specs::Pieces::macro_definition))]
pub(crate) fn read_macro(alloc: Global, text: &[u8]) -> Result<ItemCommands, ItemFail>
    ensures { Gives result (macro_definition text.now) }
{
    let (name, pieces) = split_first(b'*', text);
    if !is_name(name) || standard_template(name).is_some() {
        return Err(ItemFail::Refused(Reason::BadWord));
    }
    let pieces = Boxed::new(alloc, copy_pieces(alloc, pieces)?)?;
    let name = Text::from_slice(alloc, name)?;
    Ok(ItemCommands::one(Command::Macro(name, pieces)))
}
