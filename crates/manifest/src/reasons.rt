//! The table of why, `file,role,because`, which `ringcheck manifest --why` prints.

ghost use Rattle.std.specs.Prelude.{◌≡◌, ◌<◌, ◌++◌, IfOk, OnOk};
ghost use Rattle.manifest.specs.Manifests as says;

use crate::model::{Proposal, ProposalReason, ProposedRole};
use crate::table::{Table, with_three_fields};
use std::alloc::{AllocError, Global};

/// The word of a role: `copper`, `plated`, `unplated`, `mixed`, `?`, or `-` for a file that is left out.
pub(crate) fn role_word(role: ProposedRole) -> &'static str
    ensures { result.now ≡ says.role_word role }
{
    match role {
        ProposedRole::Copper(_) => "copper",
        ProposedRole::Plated(_) => "plated",
        ProposedRole::Unplated(_) => "unplated",
        ProposedRole::Mixed(_) => "mixed",
        ProposedRole::Undecided => "?",
        ProposedRole::LeftOut => "-",
    }
}

/// The words of a reason, without the fields of a file function.
fn reason_words(because: &ProposalReason) -> &'static str
    ensures { result.now ≡ says.reason_words because.now }
{
    match because {
        ProposalReason::NoKind => "neither a Gerber nor a drill file",
        ProposalReason::NoHoles => "a drill file without holes",
        ProposalReason::Archive => "a zip archive: unpack it",
        ProposalReason::Folder => "a folder: name its files",
        ProposalReason::FileFunction(_) => "file function ",
        ProposalReason::MixedHoles => "mixed: role mixed with --profile wide, or export two files",
        ProposalReason::MixedTools => "its comments say which holes are plated",
        ProposalReason::UnreadMixed => "mixed, but not read as mixed: export two files",
        ProposalReason::PlatedType => "its comments say plated",
        ProposalReason::UnplatedType => "its comments say not plated",
        ProposalReason::ByName => "name",
        ProposalReason::ConflictingName => "its name is ambiguous",
        ProposalReason::RepeatedLayer => "another file is the same layer",
        ProposalReason::DrillByDefault => "a drill file counts as plated unless it says otherwise",
        ProposalReason::DrillInGerber => "a drill file in Gerber: export Excellon",
        ProposalReason::Plane => "a plane that may be negative",
        ProposalReason::NothingSays => "nothing identifies it",
        ProposalReason::UnclearLayers => "its layers are not clear from the copper files",
        ProposalReason::NotRead => "it cannot be read",
        ProposalReason::TooLong => "it is too long",
    }
}

/// The first field of the file function that a reason names, empty where it names none.
fn named_function(because: &ProposalReason) -> &[u8]
    ensures { result.now ≡ says.named_function because.now }
{
    match because {
        ProposalReason::FileFunction(function) => function.bytes(),
        _ => &[],
    }
}

/// A digit of base 16, in lower case.
fn hex_digit(value: u8) -> u8
    requires { value < 16 }
    ensures { result ≡ says.hex_digit value }
{
    if value < 10 {
        b'0' + value
    } else {
        b'a' + (value - 10)
    }
}

/// Appends a byte of a file: as it is where it may be printed so, else as `\xNN`.
fn push_byte(text: &mut Vec<u8>, byte: u8) -> Result<(), AllocError>
    ensures { OnOk result (text.new.items ≡ text.old.items ++ says.byte_text byte) }
{
    if b' ' <= byte && byte < 0x7F && byte != b'\\' {
        text.push(byte)?;
        return Ok(());
    }
    let escape = [b'\\', b'x', hex_digit(byte / 16), hex_digit(byte % 16)];
    text.extend_from_slice(&escape)
}

/// The text of a reason. The bytes of a file stand in it as printable ASCII, so that no other byte reaches a terminal.
fn because_text(alloc: Global, because: &ProposalReason) -> Result<Vec<u8>, AllocError>
    ensures { IfOk result (λ text. text.items ≡ says.because_text because.now) }
{
    let mut text = Vec::from_slice(alloc, reason_words(because).as_bytes())?;
    for byte in named_function(because) {
        push_byte(&mut text, *byte)?;
    }
    Ok(text)
}

/// The table with one more row, that of a file.
fn with_reason(alloc: Global, table: Table, file: &Proposal) -> Result<Table, AllocError>
    ensures { IfOk result (λ more. more ≡ table ++ says.reason_row file.now) }
{
    let because = because_text(alloc, &file.because)?;
    let role = role_word(file.role);
    with_three_fields(
        table,
        file.file.as_str().as_bytes(),
        role.as_bytes(),
        because.as_slice(),
    )
}

/// A table with the first row, `file,role,because`.
fn heading(alloc: Global) -> Result<Table, AllocError>
    ensures { IfOk result (λ table. table ≡ says.reasons_heading) }
{
    with_three_fields(Table::new(alloc)?, b"file", b"role", b"because")
}

/// The table of why: a first row `file,role,because`, and a row for each file in the order of the proposals, as `csv` writes
/// them. The role of a file that is left out is `-`. In the field of a file function, a backslash and each byte that is not
/// printable ASCII stand as `\xNN`; the names of files stand as they are.
///
/// # Errors
///
/// An `AllocError` where there is no memory.
pub fn write_reasons(alloc: Global, proposals: &[Proposal]) -> Result<Vec<u8>, AllocError>
    ensures exact { IfOk result (λ text. text.items ≡ says.reasons_text proposals.now) }
{
    let mut table = heading(alloc)?;
    for file in proposals {
        table = with_reason(alloc, table, file)?;
    }
    table.into_bytes()
}
