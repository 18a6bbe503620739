//! Reports on small packages, and what their boards hold.

use grid_units::{Fault, Profile, Reason, Rules};
use package_check::{
    Board, CheckText, File, FileLines, FileSum, Keep, PackageCheck, PackageFault, PackageReader,
    PiecedFile, Report, Role, Said, Span, check_bytes, check_pieces, layer_count, read_package,
    write_report,
};
use std::alloc::{AllocError, Global};

/// Why a row could not be tried.
#[derive(Clone, Copy, Debug, PartialEq, Eq)]
pub(crate) enum RowFail {
    /// Memory ran out.
    Memory,
    /// The files, or the rules, are refused.
    Refused,
}

impl From<AllocError> for RowFail {
    fn from(_error: AllocError) -> RowFail {
        RowFail::Memory
    }
}

impl From<Reason> for RowFail {
    fn from(_reason: Reason) -> RowFail {
        RowFail::Refused
    }
}

impl From<PackageFault> for RowFail {
    fn from(_fault: PackageFault) -> RowFail {
        RowFail::Refused
    }
}

const LAYER: &[u8] = b"%FSLAX46Y46*%\n%MOMM*%\n%ADD10C,0.65*%\nD10*\nX0Y0D03*\nM02*\n";

const MOVED: &[u8] = b"%FSLAX46Y46*%\n%MOMM*%\n%ADD10C,0.65*%\nD10*\nX1Y0D03*\nM02*\n";

/// A layer that selects an aperture that is not defined, and goes on.
const UNKNOWN: &[u8] = b"%FSLAX46Y46*%\n%MOMM*%\n%ADD10C,0.65*%\nD11*\nX0Y0D03*\nM02*\n";

const DRILL: &[u8] = b"M48\nMETRIC\nT1C0.4\n%\nT1\nX0.0Y0.0\nM30\n";

const TWO: &[u8] =
    b"%FSLAX46Y46*%\n%MOMM*%\n%ADD10C,0.75*%\nD10*\nX0Y0D03*\nX2000000Y0D03*\nM02*\n";

const SLOT: &[u8] = b"M48\nMETRIC\nT1C0.5\n%\nT1\nX0.0Y0.0G85X2.0Y0.0\nM30\n";

/// The first line of a report in a profile.
fn first_line(profile: Profile) -> &'static str {
    match profile {
        Profile::Strict => "rules ring=0.125000000 gap=0.250000000\n",
        Profile::Wide => "rules ring=0.125000000 gap=0.250000000 profile=wide\n",
    }
}

/// A file: its role, its name, the first and the last layer of its span, and its bytes.
pub(crate) type FileRow<'a> = (Role, &'a str, Option<(u32, u32)>, &'a [u8]);

const TOP: FileRow = (Role::Copper, "top", None, LAYER);

/// A layer whose disc is 1 nm off its hole.
const BOTTOM: FileRow = (Role::Copper, "bot", None, MOVED);

const PTH: FileRow = (Role::Plated, "pth", None, DRILL);

const FAULT: Fault = Fault {
    place: 0,
    byte: 0,
    reason: Reason::BadSpan,
};

/// This span is said of a file, and nothing of its coordinates.
fn said(span: Option<Span>) -> Said {
    Said { span, format: None }
}

fn file<'a>(row: FileRow<'a>) -> File<'a> {
    let (role, name, span, bytes) = row;
    let span = match span {
        Some((first, last)) => Span::new(first, last),
        None => None,
    };
    File {
        role,
        name,
        said: said(span),
        bytes,
    }
}

fn push_files<'a>(files: &mut Vec<File<'a>>, rows: &[FileRow<'a>]) -> Result<(), AllocError> {
    for row in rows {
        if files.push(file(*row)).is_err() {
            return Err(AllocError);
        }
    }
    Ok(())
}

fn files_of<'a>(alloc: Global, rows: &[FileRow<'a>]) -> Result<Vec<File<'a>>, AllocError> {
    let mut files = Vec::new(alloc);
    push_files(&mut files, rows)?;
    Ok(files)
}

fn push_names<'a>(names: &mut Vec<&'a str>, rows: &[FileRow<'a>]) -> Result<(), AllocError> {
    for row in rows {
        names.push(row.1)?;
    }
    Ok(())
}

fn names_of<'a>(alloc: Global, rows: &[FileRow<'a>]) -> Result<Vec<&'a str>, AllocError> {
    let mut names = Vec::new(alloc);
    push_names(&mut names, rows)?;
    Ok(names)
}

/// A ring of 0.125 mm and a gap of 0.25 mm, in a profile.
fn rules_in(profile: Profile) -> Result<Rules, RowFail> {
    let rules = Rules::new(125_000_000, 250_000_000)?;
    Ok(rules.in_profile(profile))
}

/// The same ring and gap in the strict profile.
fn rules() -> Result<Rules, RowFail> {
    rules_in(Profile::Strict)
}

/// The text of a report on files of these names.
fn text_of<'a>(
    alloc: Global,
    names: &'a [&'a str],
    report: &'a Report,
) -> Result<String, AllocError> {
    format!(in alloc; "{}", CheckText { names, report })
}

/// Whether a report has the first line of the profile and then this text, and these bytes.
fn is_printed(
    alloc: Global,
    profile: Profile,
    names: &[&str],
    report: &Report,
    lines: &str,
    bytes: &[u8],
) -> Result<bool, RowFail> {
    let printed = text_of(alloc, names, report)?;
    let is_text = printed.as_str().strip_prefix(first_line(profile)) == Some(lines);
    Ok(is_text && printed.as_bytes() == bytes)
}

/// Whether a report on these files has the first line of the profile and then this text, written as bytes and printed by their names.
fn is_written(
    alloc: Global,
    profile: Profile,
    files: &[File],
    names: &[&str],
    report: &Report,
    lines: &str,
) -> Result<bool, RowFail> {
    if report.files().len() != files.len() {
        return Ok(false);
    }
    let written = write_report(alloc, files, report)?;
    is_printed(alloc, profile, names, report, lines, &written)
}

fn is_report_on(
    alloc: Global,
    profile: Profile,
    files: &[File],
    names: &[&str],
    lines: &str,
) -> Result<bool, RowFail> {
    let report = check_bytes(alloc, files, rules_in(profile)?)?;
    let in_bytes = checked_in_bytes(alloc, profile, files)??;
    Ok(
        is_written(alloc, profile, files, names, &report, lines)?
            && is_written(alloc, profile, files, names, &in_bytes, lines)?,
    )
}

/// Whether the report in a profile on the files, which are also taken byte by byte, has this text after its first line, written as bytes
/// and printed by the names of the files.
fn is_reported(
    alloc: Global,
    profile: Profile,
    rows: &[FileRow],
    lines: &str,
) -> Result<bool, RowFail> {
    let files = files_of(alloc, rows)?;
    let names = names_of(alloc, rows)?;
    is_report_on(alloc, profile, &files, &names, lines)
}

/// A profile, files, and the report on them after its first line: a span is printed, and a hole lacks its ring on a layer of it.
const REPORTS: [(Profile, &[FileRow], &str); 3] = [
    (
        Profile::Strict,
        &[TOP, PTH],
        "file 1 layer pads=1 other=0 name=top\nfile 2 drill plated=yes round=1 slots=0 name=pth\nPASS\n",
    ),
    (
        Profile::Wide,
        &[TOP, PTH],
        "file 1 layer pads=1 other=0 contours=0 name=top\nfile 2 drill plated=yes round=1 slots=0 name=pth\nPASS\n",
    ),
    (
        Profile::Strict,
        &[TOP, BOTTOM, (Role::Plated, "pth", Some((2, 2)), DRILL)],
        "file 1 layer pads=1 other=0 name=top\nfile 2 layer pads=1 other=0 name=bot\nfile 3 drill plated=yes round=1 slots=0 span=2-2 name=pth\nRING layer=2 drill=3 hole=1 x=0.000000000 y=0.000000000 diameter=0.400000000\nFINDINGS 1\n",
    ),
];

#[test]
fn reports_are_printed(rt: HostRuntime) {
    for &(profile, rows, lines) in &REPORTS {
        let reported = is_reported(rt.alloc(), profile, rows, lines);
        assert!(rt; reported == Ok(true), "{lines}");
    }
}

fn push_bytes<'a>(pieces: &mut Vec<&'a [u8]>, text: &'a [u8]) -> Result<(), AllocError> {
    for piece in text.chunks(1) {
        pieces.push(piece)?;
        pieces.push(&text[..0])?;
    }
    Ok(())
}

/// The text's bytes one by one, each followed by an empty piece.
fn in_bytes<'a>(alloc: Global, text: &'a [u8]) -> Result<Vec<&'a [u8]>, AllocError> {
    let mut pieces = Vec::new(alloc);
    push_bytes(&mut pieces, text)?;
    Ok(pieces)
}

/// The report on a layer and a plated drill file in pieces.
fn report_of_pieces<'a>(
    alloc: Global,
    top: &'a [&'a [u8]],
    pth: &'a [&'a [u8]],
) -> Result<Report, RowFail> {
    let files = [
        PiecedFile {
            role: Role::Copper,
            name: "top",
            said: said(None),
            pieces: top,
        },
        PiecedFile {
            role: Role::Plated,
            name: "pth",
            said: said(None),
            pieces: pth,
        },
    ];
    Ok(check_pieces(alloc, &files, rules()?)?)
}

/// The report on a layer and a plated drill file that come byte by byte.
fn report_in_bytes(alloc: Global, top: &[u8], pth: &[u8]) -> Result<Report, RowFail> {
    let top = in_bytes(alloc, top)?;
    let pth = in_bytes(alloc, pth)?;
    report_of_pieces(alloc, &top, &pth)
}

/// The text of the report on the whole files.
fn text_of_whole(alloc: Global) -> Result<String, RowFail> {
    let whole = check_bytes(alloc, &[file(TOP), file(PTH)], rules()?)?;
    Ok(text_of(alloc, &["top", "pth"], &whole)?)
}

/// Whether a report on two files has this text.
fn has_text(alloc: Global, report: &Report, text: &str) -> Result<bool, RowFail> {
    let found = text_of(alloc, &["top", "pth"], report)?;
    Ok(report.files().len() == 2 && found.as_str() == text)
}

/// Whether the report on the files that come byte by byte has this text.
fn pieces_have_text(alloc: Global, text: &str) -> Result<bool, RowFail> {
    let report = report_in_bytes(alloc, LAYER, DRILL)?;
    has_text(alloc, &report, text)
}

fn are_pieces_alike(alloc: Global) -> Result<bool, RowFail> {
    let wanted = text_of_whole(alloc)?;
    pieces_have_text(alloc, wanted.as_str())
}

#[test]
fn pieces_give_the_report_of_the_whole(rt: HostRuntime) {
    assert!(rt; are_pieces_alike(rt.alloc()) == Ok(true));
}

/// Takes a file byte by byte.
fn take_in_bytes(reader: &mut PackageReader, index: usize, file: &File) -> Result<(), AllocError> {
    let mut open = reader.begin(index, file.role, file.said);
    for piece in file.bytes.chunks(1) {
        open.take(piece)?;
    }
    reader.end(open)
}

/// Takes the files of a package byte by byte, but for its copper files where these are left to a check.
fn take_all_in_bytes(
    reader: &mut PackageReader,
    files: &[File],
    with_copper: bool,
) -> Result<(), AllocError> {
    for (index, file) in files.iter().enumerate() {
        if with_copper || file.role != Role::Copper {
            take_in_bytes(reader, index, file)?;
        }
    }
    Ok(())
}

/// Takes a copper file byte by byte, whose layer has this number.
fn check_in_bytes(
    check: &mut PackageCheck,
    index: usize,
    layer: usize,
    file: &File,
) -> Result<(), AllocError> {
    let mut open = check.begin(index, layer, file.said);
    for piece in file.bytes.chunks(1) {
        check.take_piece(&mut open, piece)?;
    }
    check.end(open)
}

fn check_all_in_bytes(check: &mut PackageCheck, files: &[File]) -> Result<(), AllocError> {
    let mut layer: usize = 0;
    for (index, file) in files.iter().enumerate() {
        if file.role == Role::Copper {
            check_in_bytes(check, index, layer, file)?;
            layer = layer.saturating_add(1);
        }
    }
    Ok(())
}

/// The report in a profile on a package whose files are taken byte by byte, or its refusal.
fn checked_in_bytes(
    alloc: Global,
    profile: Profile,
    files: &[File],
) -> Result<Result<Report, PackageFault>, RowFail> {
    let mut reader = PackageReader::new(alloc, layer_count(files), profile);
    take_all_in_bytes(&mut reader, files, false)?;
    let mut check = reader.checking(rules_in(profile)?)?;
    check_all_in_bytes(&mut check, files)?;
    Ok(check.finish())
}

/// The board of a package whose files are taken byte by byte, or its refusal.
fn board_in_bytes(
    alloc: Global,
    files: &[File],
) -> Result<Result<Board, PackageFault>, AllocError> {
    let mut reader = PackageReader::new(alloc, layer_count(files), Profile::Strict);
    take_all_in_bytes(&mut reader, files, true)?;
    Ok(reader.board())
}

/// Why files have no report in a profile.
pub(crate) fn fault_in(
    alloc: Global,
    profile: Profile,
    rows: &[FileRow],
) -> Result<Option<PackageFault>, RowFail> {
    let files = files_of(alloc, rows)?;
    Ok(check_bytes(alloc, &files, rules_in(profile)?).err())
}

/// How many drill files of a package have comments that contradict their role, in a profile.
pub(crate) fn contradicted_in(
    alloc: Global,
    profile: Profile,
    rows: &[FileRow],
) -> Result<usize, RowFail> {
    let files = files_of(alloc, rows)?;
    let board = read_package(alloc, profile, &files, Keep::Pads)?;
    let contradicted = board.files().iter().filter(|file| {
        matches!(
            file,
            FileSum::Drill {
                contradicted: true,
                ..
            }
        )
    });
    Ok(contradicted.count())
}

/// A file's number, from 0, and the reason why the package is refused for it, in place of a report and of a board.
fn is_refused(alloc: Global, rows: &[FileRow], fault: PackageFault) -> Result<bool, RowFail> {
    let files = files_of(alloc, rows)?;
    let fault = Some(fault);
    let report = check_bytes(alloc, &files, rules()?).err();
    let board = read_package(alloc, Profile::Strict, &files, Keep::Pads).err();
    Ok(
        report == fault
            && board == fault
            && checked_in_bytes(alloc, Profile::Strict, &files)?.err() == fault
            && board_in_bytes(alloc, &files)?.err() == fault,
    )
}

/// A span has layers of the package, and no layer has one. The first file that is refused counts, whatever stands after it.
const REFUSALS: [(&[FileRow], usize, Fault); 6] = [
    (&[TOP, (Role::Plated, "pth", Some((1, 2)), DRILL)], 1, FAULT),
    (&[(Role::Unplated, "pth", Some((2, 2)), b""), TOP], 0, FAULT),
    (&[(Role::Plated, "pth", Some((1, 1)), DRILL)], 0, FAULT),
    (&[(Role::Copper, "top", Some((1, 1)), b""), PTH], 0, FAULT),
    (
        &[
            (Role::Copper, "top", None, b""),
            (Role::Plated, "pth", Some((1, 2)), DRILL),
        ],
        0,
        Fault {
            place: 1,
            byte: 0,
            reason: Reason::Truncated,
        },
    ),
    (
        &[PTH, (Role::Copper, "top", None, UNKNOWN), BOTTOM],
        1,
        Fault {
            place: 4,
            byte: 37,
            reason: Reason::UnknownAperture,
        },
    ),
];

#[test]
fn the_first_file_that_is_refused_counts(rt: HostRuntime) {
    for &(rows, index, fault) in &REFUSALS {
        let fault = PackageFault::File { index, fault };
        assert!(rt; is_refused(rt.alloc(), rows, fault) == Ok(true), "{index}");
    }
}

/// The files of a board with two layers, each between two drill files.
const FOUR: [FileRow; 4] = [
    (Role::Unplated, "npth", None, DRILL),
    TOP,
    (Role::Plated, "pth", Some((1, 2)), SLOT),
    BOTTOM,
];

/// Whether a hole is plated, whether it is round, and its span.
type Hole = (bool, bool, Option<Span>);

/// The hole of a board at a place.
fn hole_of(board: &Board, place: usize) -> Option<Hole> {
    let drilled = board.holes().get(place)?;
    Some((drilled.plated, drilled.hole.is_round(), drilled.span))
}

/// The board of these files.
fn board_of_four(alloc: Global) -> Result<Board, RowFail> {
    let files = files_of(alloc, &FOUR)?;
    Ok(read_package(alloc, Profile::Strict, &files, Keep::Pads)?)
}

/// The number of pads on each layer of a board.
fn pad_counts(alloc: Global, board: &Board) -> Result<Vec<usize>, AllocError> {
    let layers = board.layers(alloc)?;
    layers.iter().map(|pads| pads.len()).collect(alloc)
}

/// What a board of four files has.
#[derive(Clone, Copy)]
enum Has<'a> {
    /// Layers of these files, with so many pads.
    Layers(&'a [usize], &'a [usize]),
    /// This hole, or none, at a place.
    Hole(usize, Option<Hole>),
    /// These lines of its files.
    Lines(&'a str),
}

fn has_layers(
    alloc: Global,
    board: &Board,
    files: &[usize],
    pads: &[usize],
) -> Result<bool, AllocError> {
    let counts = pad_counts(alloc, board)?;
    Ok(board.layer_indexes() == files && counts.as_slice() == pads)
}

fn has_lines(alloc: Global, board: &Board, wanted: &str) -> Result<bool, AllocError> {
    let lines = FileLines {
        profile: Profile::Strict,
        names: &["npth", "top", "pth", "bot"],
        files: board.files(),
    };
    let text = format!(in alloc; "{lines}")?;
    Ok(text.as_str() == wanted)
}

fn board_has(alloc: Global, board: &Board, what: &Has) -> Result<bool, AllocError> {
    match what {
        Has::Layers(files, pads) => has_layers(alloc, board, files, pads),
        Has::Hole(place, hole) => Ok(hole_of(board, *place) == *hole),
        Has::Lines(lines) => has_lines(alloc, board, lines),
    }
}

/// Whether the board of four files has this.
fn is_on_board(alloc: Global, what: &Has) -> bool {
    match board_of_four(alloc) {
        Ok(board) => matches!(board_has(alloc, &board, what), Ok(true)),
        Err(_) => false,
    }
}

#[test]
fn a_board_has_the_layers_of_its_files(rt: HostRuntime) {
    assert!(rt; is_on_board(rt.alloc(), &Has::Layers(&[1, 3], &[1, 1])));
}

#[test]
fn a_board_has_the_holes_of_its_files(rt: HostRuntime) {
    for (place, hole) in [
        (0, Some((false, true, None))),
        (1, Some((true, false, Span::new(1, 2)))),
        (2, None),
    ] {
        assert!(rt;
            is_on_board(rt.alloc(), &Has::Hole(place, hole)),
            "at {place}"
        );
    }
}

#[test]
fn the_lines_of_files_are_printed_alone(rt: HostRuntime) {
    let wanted =
        "file 1 drill plated=no round=1 slots=0 name=npth\nfile 2 layer pads=1 other=0 name=top\nfile 3 drill plated=yes round=0 slots=1 span=1-2 name=pth\nfile 4 layer pads=1 other=0 name=bot\n";
    assert!(rt; is_on_board(rt.alloc(), &Has::Lines(wanted)));
}

/// Whether a board has the two findings of a report, the second of whose holes is the first of the third file.
fn has_findings_of(alloc: Global, board: &Board, report: &Report) -> Result<bool, RowFail> {
    let found = board.findings(alloc, rules()?)?;
    let is_last = match report.hole(1) {
        Some(last) => (last.file, last.number) == (2, 1),
        None => false,
    };
    Ok(is_last && found.len() == 2 && found.as_slice() == report.findings())
}

/// Whether the board of some files has such findings of their report.
fn reports_its_findings(alloc: Global, files: &[File]) -> Result<bool, RowFail> {
    let board = read_package(alloc, Profile::Strict, files, Keep::Pads)?;
    let report = check_bytes(alloc, files, rules()?)?;
    has_findings_of(alloc, &board, &report)
}

#[test]
fn a_board_has_the_findings_of_its_report(rt: HostRuntime) {
    let (top, npth) = (
        (Role::Copper, "top", None, MOVED),
        (Role::Unplated, "pth", None, DRILL),
    );
    let files = [file(top), file(PTH), file(npth)];
    assert!(rt; reports_its_findings(rt.alloc(), &files) == Ok(true));
}

/// Takes a layer in two pieces, a drill file, and a layer in one piece, in another order than theirs.
fn take_three(reader: &mut PackageReader) -> Result<(), AllocError> {
    let (start, end) = TWO.split_at(50);
    reader.take(1, Role::Plated, said(None), &[DRILL])?;
    reader.take(2, Role::Copper, said(None), &[TWO])?;
    reader.take(0, Role::Copper, said(None), &[start, end])
}

const LAYER_OF_TWO: FileSum = FileSum::Layer {
    pads: 2,
    other: 0,
    contours: 0,
};

/// The board of these files, with the flashes of copper.
fn board_of_three(alloc: Global) -> Result<Board, RowFail> {
    let mut reader = PackageReader::keeping(alloc, 2, Profile::Strict, Keep::Rows);
    take_three(&mut reader)?;
    Ok(reader.board()?)
}

/// Whether a board has these files, flashes of these numbers on each, and two layers.
fn has_flashes(
    alloc: Global,
    board: &Board,
    files: &[FileSum],
    counts: [usize; 3],
) -> Result<bool, RowFail> {
    let layers = board.layers(alloc)?;
    let found = [
        board.rows_of(0).len(),
        board.rows_of(1).len(),
        board.rows_of(2).len(),
    ];
    Ok(board.files() == files && found == counts && layers.len() == 2)
}

/// The sum of a plated drill file of one round hole.
const DRILL_OF_ONE: FileSum = FileSum::Drill {
    plated: true,
    span: None,
    contradicted: false,
    round: 1,
    slots: 0,
};

fn has_flashes_of_copper(alloc: Global) -> Result<bool, RowFail> {
    let board = board_of_three(alloc)?;
    let files = &[LAYER_OF_TWO, DRILL_OF_ONE, LAYER_OF_TWO];
    has_flashes(alloc, &board, files, [2, 0, 2])
}

#[test]
fn a_reader_gives_the_flashes_of_copper(rt: HostRuntime) {
    assert!(rt; has_flashes_of_copper(rt.alloc()) == Ok(true));
}

/// Takes a layer that is a drill file, and after it a layer with a span.
fn take_refused(reader: &mut PackageReader) -> Result<(), AllocError> {
    reader.take(1, Role::Copper, said(None), &[DRILL])?;
    reader.take(0, Role::Copper, said(Span::new(1, 1)), &[TWO])
}

/// Whether such a package is refused for the layer with a span.
fn is_first_kept(alloc: Global) -> Result<bool, RowFail> {
    let mut reader = PackageReader::keeping(alloc, 2, Profile::Strict, Keep::Rows);
    take_refused(&mut reader)?;
    let (index, fault) = (0, FAULT);
    Ok(reader.board().err() == Some(PackageFault::File { index, fault }))
}

#[test]
fn a_reader_with_flashes_keeps_the_first_refusal(rt: HostRuntime) {
    assert!(rt; is_first_kept(rt.alloc()) == Ok(true));
}
