ghost use Rattle.std.specs.Prelude.{◌≤◌, length};

use crate::texts::{LAYER, expected_fault, joined};
use gerber_text::{
    Action, Command, Interpolation, Placed, WordReader, leading_operation, read_kept, read_words,
    write_placed,
};
use grid_units::Reason::*;
use grid_units::{Fail, Reason};
use std::alloc::Global;

/// The fault of a text that is read whole, if it has one.
fn fault_of(alloc: Global, text: &[u8]) -> Option<Fail> {
    match read_words(alloc, text) {
        Ok(_) => None,
        Err(fail) => Some(fail),
    }
}

/// What a text reads as when it comes in two pieces.
fn in_two(alloc: Global, text: &[u8], at: usize) -> Result<Vec<Placed<Command>>, Fail>
    requires { at ≤ length text.now }
{
    let mut reader = WordReader::new(alloc);
    let _ = reader.feed(&text[..at]);
    let _ = reader.feed(&text[at..]);
    reader.finish()
}

/// What a text reads as when it comes byte by byte.
fn in_bytes(alloc: Global, text: &[u8]) -> Result<Vec<Placed<Command>>, Fail> {
    let mut reader = WordReader::new(alloc);
    for i in 0..text.len() {
        let _ = reader.feed(&text[i..i + 1]);
    }
    reader.finish()
}

/// Whether two lists have the same places and bytes, and the same canonical text.
fn are_same(
    alloc: Global,
    commands: &[Placed<Command>],
    others: &[Placed<Command>],
) -> Result<bool, Fail> {
    let mut same = commands.len() == others.len();
    for (one, other) in commands.iter().zip(others.iter()) {
        same = same && one.place == other.place && one.byte == other.byte;
    }
    Ok(same && write_placed(alloc, commands)? == write_placed(alloc, others)?)
}

/// Whether two answers are the same fault, or the same commands at the same places.
fn agree(
    alloc: Global,
    answer: &Result<Vec<Placed<Command>>, Fail>,
    other: &Result<Vec<Placed<Command>>, Fail>,
) -> bool {
    match (answer, other) {
        (Ok(commands), Ok(others)) => matches!(are_same(alloc, commands, others), Ok(true)),
        (Err(fault), Err(other)) => fault == other,
        _ => false,
    }
}

/// Whether every prefix of a text has one answer, whole and byte by byte.
fn is_same_in_bytes(alloc: Global, text: &[u8]) -> bool {
    for n in 0..text.len() + 1 {
        let front = &text[..n];
        if !agree(alloc, &in_bytes(alloc, front), &read_words(alloc, front)) {
            return false;
        }
    }
    true
}

/// Whether every prefix of a text has one answer, whole and byte by byte, and so has the text in any two pieces.
pub(crate) fn is_same_in_pieces(alloc: Global, text: &[u8]) -> bool {
    let whole = read_words(alloc, text);
    for at in 0..text.len() + 1 {
        if !agree(alloc, &in_two(alloc, text, at), &whole) {
            return false;
        }
    }
    is_same_in_bytes(alloc, text)
}

/// Whether a text has this fault (a place, a byte and a reason) or none, whole and in pieces.
fn has_fault(alloc: Global, text: &[u8], fault: Option<(u64, u64, Reason)>) -> bool {
    fault_of(alloc, text) == expected_fault(fault) && is_same_in_pieces(alloc, text)
}

/// Items, and the reasons for which they are refused.
const ITEMS: [(&[u8], Reason); 73] = [
    // Refused by name.
    (b"%FSLAX24Y24*MOMM*%", SeveralInOne),
    (b"%LPC*LPD*%", SeveralInOne),
    (b"%**%", SeveralInOne),
    (b"%LPC*%", ClearPolarity),
    (b"%ABD12*%", BlockAperture),
    (b"%TF.FilePolarity,Negative*%", NegativeImage),
    (b"G04 #@! TF.FilePolarity,Negative*", NegativeImage),
    (b"%IPNEG*%", NegativeImage),
    (b"%FSTAX24Y24*%", TrailingZeros),
    (b"%FSLIX24Y24*%", Incremental),
    (b"G91*", Incremental),
    (b"%SFA2B1*%", OldParameter),
    (b"%OFA1*%", OldParameter),
    (b"%OFB0A0*%", OldParameter),
    (b"%OFA*%", OldParameter),
    (b"%SFA1B*%", OldParameter),
    (b"%IR*%", OldParameter),
    (b"%IR0.000000001*%", OldParameter),
    (b"%ASAYBX*%", OldParameter),
    (b"%MIA1*%", OldParameter),
    (b"M00*", OldParameter),
    (b"M01*", OldParameter),
    (b"N10*", OldParameter),
    // These fit no row of the tables of words and of extended items.
    (b"X1%*", BadWord),
    (b"X1%MOMM*", BadWord),
    (b"X1I1D02*", BadWord),
    (b"%ABD10%", BadWord),
    (b"%FSLAX24Y24*MOMM%", BadWord),
    (b"%%", BadWord),
    (b"%*%", BadWord),
    (b"%AM*LPC*%", BadWord),
    (b"%AMC*1*%", BadWord),
    (b"G01D*", BadWord),
    (b"G01D99999999999*", BadWord),
    (b"D4*", BadWord),
    (b"XD5*", BadWord),
    (b"X1D5*", BadWord),
    (b"G54D01*", BadWord),
    (b"G4*", BadWord),
    (b"G91X1*", BadWord),
    (b"M0*", BadWord),
    (b"M002*", BadWord),
    (b"%ADD10C*%", BadWord),
    (b"%ADD10C,1X1X1X1*%", BadWord),
    (b"%ADD9C,1X1X1X1*%", BadWord),
    (b"%FSLAX2Y2*%", BadWord),
    (b"%FSLAX246Y246*%", BadWord),
    (b"%SRX2Y1*%", BadWord),
    (b"%IPX*%", BadWord),
    (b"\xEF\xBB\xBFG04*", BadWord),
    // Their numbers are at fault.
    (b"D*", BadNumber),
    (b"D99999999999*", BadNumber),
    (b"X1D*", BadNumber),
    (b"X1I1D*", BadNumber),
    (b"X1Y+-D03*", BadNumber),
    (b"X9999999999999Y+-D03*", BadNumber),
    (b"X1.0D03*", BadNumber),
    (b"%ADDC,1*%", BadNumber),
    (b"%ADD10C,*%", BadNumber),
    (b"%ADD10C,1X*%", BadNumber),
    (b"%ADD09C,0.123456789*%", BadNumber),
    (b"%FSLAX24Y25*%", BadNumber),
    (b"%LR*%", BadNumber),
    (b"%LS*%", BadNumber),
    (b"%SRXYIJ*%", BadNumber),
    (b"%SRX2147483648Y1I1J0*%", BadNumber),
    (b"X9999999999999D03*", TooManyDigits),
    (b"X1Y-1000000000000D03*", TooManyDigits),
    (b"%ADD10C,1000000X0.123456789*%", TooFine),
    (b"%ADD10C,1000000*%", TooFar),
    (b"X1*", BareCoordinate),
    (b"I5*", BareCoordinate),
    (b"G01X1Y1*", BareCoordinate),
];

/// Whether an item is refused for this reason when `M02*` follows it.
fn is_refused(alloc: Global, item: &[u8], reason: Reason) -> bool {
    match joined(alloc, &[item, b"M02*"]) {
        Some(text) => has_fault(alloc, &text, Some((1, 0, reason))),
        None => false,
    }
}

#[test]
fn items_refused(rt: HostRuntime) {
    let rows = &ITEMS;
    for (i, &(item, reason)) in rows.iter().enumerate() {
        assert!(rt; is_refused(rt.alloc(), item, reason), "of row {i}");
    }
}

/// Texts with the places, the bytes and the reasons of their faults.
const TEXTS: [(&[u8], u64, u64, Reason); 13] = [
    (b"M02*D", 2, 4, AfterEnd),
    (b"X1%M02*", 1, 0, BadWord),
    (b"", 1, 0, Truncated),
    (b"X1%", 1, 0, Truncated),
    (b"X1%MOMM*%", 1, 0, BadWord),
    (b"D10* \t\r\n", 2, 8, Truncated),
    (b"G04*  X", 2, 4, Truncated),
    (b"D10*\nD1", 2, 5, Truncated),
    (b"M02*\nD10*", 2, 5, AfterEnd),
    (b"X1D02*X6*M02*", 2, 6, BareCoordinate),
    (b"D10*\r\nX1Y+-D03*M02*", 2, 6, BadNumber),
    (b"%FSLAX46Y46*%\n%MOMM*%\n%ADD10C,0.6", 3, 22, Truncated),
    (
        b"%FSLAX46Y46*%\n%MOMM*%\n%LPC*%\nM02*\n",
        3,
        22,
        ClearPolarity,
    ),
];

#[test]
fn texts_refused(rt: HostRuntime) {
    let rows = &TEXTS;
    for (i, &(text, place, byte, reason)) in rows.iter().enumerate() {
        assert!(rt;
            has_fault(rt.alloc(), text, Some((place, byte, reason))),
            "of row {i}"
        );
    }
}

/// The layer's first bytes, at most so many.
fn front(count: usize) -> &'static [u8] {
    &LAYER[..count.min(56)]
}

/// The layer's bytes after so many.
fn back(count: usize) -> &'static [u8] {
    &LAYER[count.min(56)..]
}

/// Where a line goes into the layer, by the bytes before it, the line, and the fault of the text.
const LINES: [(usize, &[u8], Option<(u64, u64, Reason)>); 13] = [
    (22, b"%LPC*%", Some((3, 22, ClearPolarity))),
    (22, b"%ABD12*%", Some((3, 22, BlockAperture))),
    (
        22,
        b"%TF.FilePolarity,Negative*%",
        Some((3, 22, NegativeImage)),
    ),
    (
        22,
        b"G04 #@! TF.FilePolarity,Negative*",
        Some((3, 22, NegativeImage)),
    ),
    (22, b"%IPNEG*%", Some((3, 22, NegativeImage))),
    (22, b"%SFA2B1*%", Some((3, 22, OldParameter))),
    (22, b"%OFA1*%", Some((3, 22, OldParameter))),
    (22, b"%ADD10C,0.123456789*%", Some((3, 22, TooFine))),
    (51, b"X6*", Some((6, 51, BareCoordinate))),
    (42, b"%LPC*%", Some((5, 42, ClearPolarity))),
    (42, b"%SRX2147483648Y1I1J0*%", Some((5, 42, BadNumber))),
    (56, b"X0D03*", Some((7, 56, AfterEnd))),
    (56, b"*   ", None),
];

/// A text of a beginning, a line, an LF and the rest.
fn with_line(alloc: Global, front: &[u8], line: &[u8], back: &[u8]) -> Option<Vec<u8>> {
    joined(alloc, &[front, line, b"\n", back])
}

/// Whether the layer with a line added after so many of its bytes has this fault, or none.
fn has_fault_with(
    alloc: Global,
    at: usize,
    line: &[u8],
    fault: Option<(u64, u64, Reason)>,
) -> bool {
    match with_line(alloc, front(at), line, back(at)) {
        Some(text) => has_fault(alloc, &text, fault),
        None => false,
    }
}

#[test]
fn lines_refused_in_a_layer(rt: HostRuntime) {
    let rows = &LINES;
    for (i, &(at, line, fault)) in rows.iter().enumerate() {
        assert!(rt; has_fault_with(rt.alloc(), at, line, fault), "of row {i}");
    }
}

#[test]
fn a_layer_cut_short(rt: HostRuntime) {
    for &(count, fault) in &[
        (51, Some((6, 51, Truncated))),
        (33, Some((3, 22, Truncated))),
        (21, Some((3, 21, Truncated))),
        (22, Some((3, 22, Truncated))),
        (23, Some((3, 22, Truncated))),
        (55, None),
    ] {
        assert!(rt; has_fault(rt.alloc(), front(count), fault), "of {count}");
    }
}

/// The interpolation, the operation and the length in bytes of a plain operation.
type Head = (Option<Interpolation>, Action, usize);

/// X, Y, I and J of an operation.
type Coordinates = (Option<i64>, Option<i64>, Option<i64>, Option<i64>);

/// The plain operation at the start of a text, if it is found.
fn operation_of(text: &[u8]) -> Option<(Head, Coordinates)> {
    let found = leading_operation(text)?;
    let head = (found.mode, found.action, found.len);
    let coordinates = (found.x.get(), found.y.get(), found.i.get(), found.j.get());
    Some((head, coordinates))
}

/// Texts, and the plain operations at their start.
const OPERATIONS: [(&[u8], Option<(Head, Coordinates)>); 6] = [
    (
        b"X1Y-2D03*\nD10*",
        Some(((None, Action::Flash, 9), (Some(1), Some(-2), None, None))),
    ),
    (
        b"Y+5D01*",
        Some(((None, Action::Plot, 7), (None, Some(5), None, None))),
    ),
    (
        b"G02X1J-3D01*X2*",
        Some((
            (Some(Interpolation::Clockwise), Action::Plot, 12),
            (Some(1), None, None, Some(-3)),
        )),
    ),
    (b"X1Y2D0", None),
    (b"X1I2D03*", None),
    (b"I1D01*", None),
];

#[test]
fn operations_read_in_one_pass(rt: HostRuntime) {
    let rows = &OPERATIONS;
    for (i, &(text, expected)) in rows.iter().enumerate() {
        assert!(rt; operation_of(text) == expected, "of row {i}");
    }
}

/// Whether a reader takes two pieces of a text.
fn takes_both(reader: &mut WordReader, text: (&[u8], &[u8])) -> bool {
    reader.feed(text.0).is_ok() && reader.feed(text.1).is_ok()
}

/// Whether a reader takes a text byte by byte.
fn takes_bytes(reader: &mut WordReader, text: &[u8]) -> bool {
    for i in 0..text.len() {
        if reader.feed(&text[i..i + 1]).is_err() {
            return false;
        }
    }
    true
}

/// Whether a reader that has taken the layer ends with the commands of the layer read whole.
fn ends_as_the_layer(alloc: Global, reader: WordReader) -> bool {
    match (reader.finish(), read_words(alloc, LAYER)) {
        (Ok(commands), Ok(whole)) => matches!(are_same(alloc, &commands, &whole), Ok(true)),
        _ => false,
    }
}

#[test]
fn a_layer_in_pieces(rt: HostRuntime) {
    let mut halves = WordReader::new(rt.alloc());
    assert!(rt; takes_both(&mut halves, (front(30), back(30))));
    assert!(rt; ends_as_the_layer(rt.alloc(), halves));
    let mut bytes = WordReader::new(rt.alloc());
    assert!(rt; takes_bytes(&mut bytes, LAYER));
    assert!(rt; ends_as_the_layer(rt.alloc(), bytes));
}

/// How many commands a reader has after the first 42 bytes of the layer, and how many after it dropped them.
fn held_and_left(reader: &mut WordReader) -> Option<(usize, usize)> {
    reader.feed(front(42)).ok()?;
    let held = reader.commands().len();
    reader.clear_commands();
    Some((held, reader.commands().len()))
}

/// The place and the byte of the first command that is moved out of a reader after the layer's next item.
fn first_taken(reader: &mut WordReader) -> Option<(u64, u64)> {
    let layer = LAYER.as_slice();
    reader.feed(&layer[42..51]).ok()?;
    match reader.take_commands().as_slice() {
        [first, ..] => Some((first.place, first.byte)),
        [] => None,
    }
}

/// How many commands a reader has at the end of the layer.
fn count_at_end(mut reader: WordReader) -> Option<usize> {
    if reader.feed(back(51)).is_err() {
        return None;
    }
    match reader.finish() {
        Ok(commands) => Some(commands.len()),
        Err(_) => None,
    }
}

#[test]
fn commands_that_a_reader_lets_go_of(rt: HostRuntime) {
    let mut reader = WordReader::new(rt.alloc());
    assert!(rt; held_and_left(&mut reader) == Some((4, 0)));
    assert!(rt; first_taken(&mut reader) == Some((5, 42)));
    assert!(rt; count_at_end(reader) == Some(1));
}

/// How many commands a text has before its fault, and the fault.
fn kept_of(alloc: Global, text: &[u8]) -> (usize, Option<Fail>) {
    let kept = read_kept(alloc, text);
    (kept.commands.len(), kept.outcome.err())
}

#[test]
fn commands_before_a_fault(rt: HostRuntime) {
    let alloc = rt.alloc();
    let text = b"%FSLAX46Y46*%\n%MOMM*%\n%LPC*%\n%ADD10C,0.65*%\nD10*\nX0Y0D03*\nM02*\n";
    let fault = expected_fault(Some((3, 22, ClearPolarity)));
    assert!(rt; kept_of(alloc, text) == (2, fault));
    assert!(rt; is_same_in_pieces(alloc, text));
}

/// Whether a reader gives this failure at each of these pieces and at its end, and holds no commands.
fn fails_at_each(alloc: Global, pieces: &[&[u8]], fail: Option<Fail>) -> bool {
    let mut reader = WordReader::new(alloc);
    for piece in pieces {
        if reader.feed(piece).err() != fail {
            return false;
        }
    }
    reader.commands().is_empty() && reader.finish().err() == fail
}

#[test]
fn a_fault_again_after_it(rt: HostRuntime) {
    let fault = expected_fault(Some((1, 0, BadWord)));
    assert!(rt; fails_at_each(rt.alloc(), &[b"x*", b"M02*", b""], fault));
}

/// A beginning, a byte, how often it stands, the rest, and the fault of the text.
type LongText = (
    &'static [u8],
    u8,
    usize,
    &'static [u8],
    Option<(u64, u64, Reason)>,
);

const LONG_TEXTS: [LongText; 7] = [
    (b"G04", b'a', 1_048_572, b"", Some((1, 0, Truncated))),
    (b"G04", b'a', 1_048_572, b"*M02*", None),
    (b"G04", b'a', 1_048_572, b"a*M02*", Some((1, 0, TooLong))),
    (b"", b'a', 1_048_576, b"", Some((1, 0, Truncated))),
    (b"", b'a', 1_048_576, b"a", Some((1, 0, TooLong))),
    (
        b"G04*",
        b' ',
        1_048_576,
        b"",
        Some((2, 1_048_580, Truncated)),
    ),
    (b"G04*", b' ', 1_048_576, b" ", Some((2, 4, TooLong))),
];

/// A text of a beginning, a byte so many times, and the rest.
fn long_text(alloc: Global, front: &[u8], byte: u8, count: usize, back: &[u8]) -> Option<Vec<u8>> {
    match vec![in alloc; byte; count] {
        Ok(middle) => joined(alloc, &[front, middle.as_slice(), back]),
        Err(_) => None,
    }
}

/// The fault of such a text; `Memory` where there is no room for it.
fn long_fault(alloc: Global, front: &[u8], byte: u8, count: usize, back: &[u8]) -> Option<Fail> {
    match long_text(alloc, front, byte, count, back) {
        Some(text) => fault_of(alloc, &text),
        None => Some(Fail::Memory),
    }
}

#[test]
fn long_texts(rt: HostRuntime) {
    let rows = &LONG_TEXTS;
    for (i, &(front, byte, count, back, fault)) in rows.iter().enumerate() {
        let found = long_fault(rt.alloc(), front, byte, count, back);
        assert!(rt; found == expected_fault(fault), "of row {i}");
    }
}

/// Whether a reader takes the letter `a` so many times, one at a time.
fn takes_letters(reader: &mut WordReader, count: usize) -> bool {
    for _ in 0..count {
        if reader.feed(b"a").is_err() {
            return false;
        }
    }
    true
}

/// Whether a reader takes the layer with a comment of a million letters before its third line.
fn takes_commented(reader: &mut WordReader) -> bool {
    reader.feed(b"%FSLAX46Y46*%\n%MOMM*%\nG04").is_ok()
        && takes_letters(reader, 1_000_000)
        && reader
            .feed(b"*\n%ADD10C,0.65*%\nD10*\nX0Y0D03*\nM02*\n")
            .is_ok()
}

#[test]
fn a_long_comment_byte_by_byte(rt: HostRuntime) {
    let mut reader = WordReader::new(rt.alloc());
    assert!(rt; takes_commented(&mut reader));
    assert!(rt; matches!(reader.finish(), Ok(commands) if commands.len() == 7));
}

#[test]
fn size_of_a_command(rt: HostRuntime) {
    assert!(rt; size_of::<Command>() <= 40 && size_of::<Placed<Command>>() <= 56);
}
