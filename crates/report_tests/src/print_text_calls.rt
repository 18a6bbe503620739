//! Reports with the figures of the worked examples, such as no command gives, and writers that fail. Other reports are in the data of
//! `worked_examples`.

use crate::rows::{CauseRow, Form, HoleRow, ReportRow, RingRow, RowFail, add_ring, report_of};
use grid_units::Profile;
use pad_shapes::Why;
use print_text::*;
use report::*;
use std::alloc::{AllocError, Global};
use std::fmt;
use std::fmt::Write;

/// A report without layers and findings, on a package that meets its rules.
const NOTHING: ReportRow = ReportRow {
    rules: (0, 1),
    profile: Profile::Strict,
    layers: &[],
    rings: &[],
    gaps: &[],
    meets: (Met::UpTo(0), Met::UpTo(1), Met::UpTo(0)),
};

/// The text of a report on files of these names.
fn text_of(
    alloc: Global,
    names: &[&str],
    report: &BoardReport,
    limit: Option<usize>,
    accepted: &Acceptances,
) -> Result<String, AllocError> {
    let text = ReportText::new(alloc, names, report, 0, None, limit, accepted)?;
    format!(in alloc; "{text}")
}

/// Whether a report on files of these names has this text.
fn has_text(
    alloc: Global,
    names: &[&str],
    report: &BoardReport,
    limit: Option<usize>,
    text: &str,
) -> bool {
    match text_of(alloc, names, report, limit, &no_acceptances()) {
        Ok(written) => written.as_str() == text,
        Err(_) => false,
    }
}

/// Whether the report of a row, on files of these names, has this text.
fn is_printed(
    alloc: Global,
    names: &[&str],
    row: &ReportRow,
    limit: Option<usize>,
    text: &str,
) -> bool {
    match report_of(alloc, row) {
        Ok(report) => has_text(alloc, names, &report, limit, text),
        Err(_) => false,
    }
}

const STICK: [&str; 4] = ["F_Cu", "B_Cu", "StickHub-NPTH", "StickHub-PTH"];

/// A hole of 0.3 mm that lacks its ring, and why.
type OffCentre = (HoleRow, CauseRow);

/// The first two holes of the worked example, off the centre of a disc of 0.5 mm; the least lack, and the greatest.
const FIRST: OffCentre = (
    (
        3,
        10,
        (143_745_000_000, -99_547_000_000),
        (143_745_000_000, -99_547_000_000),
        300_000_000,
    ),
    CauseRow::OffCentre(
        150,
        Form::Disc(250_000_000),
        (143_745_010_000, -99_546_626_000),
        99_625_866,
        374_134,
    ),
);

const SECOND: OffCentre = (
    (
        3,
        22,
        (146_180_000_000, -93_072_000_000),
        (146_180_000_000, -93_072_000_000),
        300_000_000,
    ),
    CauseRow::OffCentre(
        121,
        Form::Disc(250_000_000),
        (146_180_031_000, -93_072_237_000),
        99_760_981,
        239_019,
    ),
);

const LEAST: OffCentre = (
    (3, 24, (0, 0), (0, 0), 300_000_000),
    CauseRow::OffCentre(2, Form::Disc(250_000_000), (0, 0), 99_998_585, 1_415),
);

const GREATEST: OffCentre = (
    (3, 24, (0, 0), (0, 0), 300_000_000),
    CauseRow::OffCentre(2, Form::Disc(250_000_000), (0, 0), 99_394_596, 605_404),
);

/// One of a layer's 24 holes: the first two, the least lack, and the greatest of all others.
fn off_centre(index: usize) -> OffCentre {
    match index {
        0 => FIRST,
        1 => SECOND,
        2 => LEAST,
        _ => GREATEST,
    }
}

/// Adds the 24 holes of each of two layers.
fn add_two_layers(report: &mut BoardReport) -> Result<(), RowFail> {
    for index in 0..48 {
        let (hole, cause) = off_centre(index % 24);
        add_ring(report, (index / 24, hole, cause))?;
    }
    Ok(())
}

/// A report on two layers of 87 holes each.
const TWO_LAYERS: ReportRow = ReportRow {
    rules: (100_000_000, 250_000_000),
    layers: &[
        LayerHead {
            file: 0,
            needed: 87,
        },
        LayerHead {
            file: 1,
            needed: 87,
        },
    ],
    meets: (
        Met::UpTo(99_394_596),
        Met::UpTo(300_000_000),
        Met::UpTo(99_394_596),
    ),
    ..NOTHING
};

/// The report on these layers with their holes.
fn limited_report(alloc: Global) -> Result<BoardReport, RowFail> {
    let mut report = report_of(alloc, &TWO_LAYERS)?;
    add_two_layers(&mut report)?;
    Ok(report)
}

/// Whether the first two findings of each of these layers are printed so.
fn is_limited_so(alloc: Global, text: &str) -> bool {
    match limited_report(alloc) {
        Ok(report) => has_text(alloc, &STICK, &report, Some(2), text),
        Err(_) => false,
    }
}

#[test]
fn a_limited_report_is_printed(rt: HostRuntime) {
    let text = "rules: annular ring 0.1 mm, hole to hole 0.25 mm\n\
        annular ring on F_Cu: 24 of 87 holes below the rule\n  \
        #1 hole 10 of StickHub-PTH, 0.3 at 143.745,-99.547: annular ring 0.099625866 (rule 0.1), off centre: flash 150, disc 0.5x0.5, hole off by -0.00001,-0.000374\n  \
        #2 hole 22 of StickHub-PTH, 0.3 at 146.18,-93.072: annular ring 0.099760981 (rule 0.1), off centre: flash 121, disc 0.5x0.5, hole off by -0.000031,0.000237\n  \
        and 22 more\n\
        annular ring on B_Cu: 24 of 87 holes below the rule\n  \
        and 24 more\n\
        hole to hole: 0 gaps too small\n\
        F_Cu, 0.3: 24 holes below the rule, smallest ring 0.099394596\n\
        B_Cu, 0.3: 24 holes below the rule, smallest ring 0.099394596\n\
        48 off centre: the pad is large enough for a hole at its centre; drill files are rounded: see `ringcheck explain ring`\n\
        smallest ring 0.099394596 (rule 0.1)\n\
        annular ring 0.099394596 is met; hole to hole 0.3 is met\n\
        FINDINGS 48\n";
    assert!(rt; is_limited_so(rt.alloc(), text));
}

/// Two layers; every other ring is on the second.
const MIXED: ReportRow = ReportRow {
    rules: (100_000_000, 250_000_000),
    layers: &[
        LayerHead { file: 0, needed: 9 },
        LayerHead { file: 1, needed: 8 },
    ],
    rings: &[
        (1, (3, 1, (0, 0), (0, 0), 300_000_000), CauseRow::NoFlash),
        (0, (3, 2, (0, 0), (0, 0), 300_000_000), CauseRow::NoFlash),
        (1, (3, 3, (0, 0), (0, 0), 300_000_000), CauseRow::NoFlash),
        (0, (3, 4, (0, 0), (0, 0), 300_000_000), CauseRow::NoFlash),
        (1, (3, 5, (0, 0), (0, 0), 300_000_000), CauseRow::NoFlash),
    ],
    meets: (Met::UpTo(0), Met::UpTo(250_000_000), Met::UpTo(0)),
    ..NOTHING
};

#[test]
fn mixed_layers_are_printed_one_by_one(rt: HostRuntime) {
    let text = "rules: annular ring 0.1 mm, hole to hole 0.25 mm\n\
        annular ring on F_Cu: 2 of 9 holes below the rule\n  \
        #2 hole 2 of StickHub-PTH, 0.3 at 0,0: no pad at the hole\n  \
        #4 hole 4 of StickHub-PTH, 0.3 at 0,0: no pad at the hole\n\
        annular ring on B_Cu: 3 of 8 holes below the rule\n  \
        #1 hole 1 of StickHub-PTH, 0.3 at 0,0: no pad at the hole\n  \
        #3 hole 3 of StickHub-PTH, 0.3 at 0,0: no pad at the hole\n  \
        and 1 more\n\
        hole to hole: 0 gaps too small\n\
        5 no pad at the hole: no pad was flashed here, or it is drawn or of a shape that is not judged, or the drill file has another origin or format: see `ringcheck explain none`\n\
        annular ring 0 is met; hole to hole 0.25 is met\n\
        FINDINGS 5\n";
    assert!(rt; is_printed(rt.alloc(), &STICK, &MIXED, Some(4), text));
}

/// A hole that is hit twice.
const HIT_TWICE: ReportRow = ReportRow {
    rules: (125_000_000, 250_000_000),
    layers: &[LayerHead { file: 0, needed: 2 }],
    gaps: &[(
        (1, 1, (0, 0), (0, 0), 400_000_000),
        (1, 2, (0, 0), (0, 0), 400_000_000),
        -400_000_000,
        650_000_000,
    )],
    meets: (
        Met::UpTo(125_000_000),
        Met::UpTo(-400_000_000),
        Met::UpTo(125_000_000),
    ),
    ..NOTHING
};

#[test]
fn a_hole_hit_twice_is_printed(rt: HostRuntime) {
    let text = "rules: annular ring 0.125 mm, hole to hole 0.25 mm\n\
        annular ring on top: 0 of 2 holes below the rule\n\
        hole to hole: 1 gap too small\n  \
        #1 hole 1 of pth, 0.4 at 0,0, and hole 2 of pth, 0.4 at 0,0: gap -0.4 (rule 0.25)\n\
        smallest gap -0.4 (rule 0.25)\n\
        annular ring 0.125 is met; hole to hole -0.4 is met\n\
        FINDINGS 1\n";
    assert!(rt; is_printed(rt.alloc(), &["top", "pth"], &HIT_TWICE, None, text));
}

const HOLED: [&str; 2] = ["top_layer", "pth"];

/// The reasons for the rings and gaps of a board with three of each.
const RINGS: [Option<&str>; 3] = [Some("milled"), Some("milled"), Some("by hand")];

const GAPS: [Option<&str>; 3] = [Some("drilled \"twice\""), Some("x"), Some("y")];

/// A hole that lies in no pad, and is drilled twice.
const FIRST_HOLE: HoleRow = (1, 1, (0, 0), (0, 0), 400_000_000);

const SECOND_HOLE: HoleRow = (1, 2, (0, 0), (0, 0), 400_000_000);

const THIRD_HOLE: HoleRow = (1, 3, (0, 0), (0, 0), 400_000_000);

/// Three holes that lack their ring and three pairs that lack their gap.
const THREE_OF_EACH: ReportRow = ReportRow {
    rules: (100_000_000, 250_000_000),
    layers: &[LayerHead {
        file: 0,
        needed: 245,
    }],
    rings: &[
        (0, FIRST_HOLE, CauseRow::NoFlash),
        (0, SECOND_HOLE, CauseRow::NoFlash),
        (0, THIRD_HOLE, CauseRow::NoFlash),
    ],
    gaps: &[
        (FIRST_HOLE, FIRST_HOLE, -400_000_000, 650_000_000),
        (SECOND_HOLE, SECOND_HOLE, -400_000_000, 650_000_000),
        (THIRD_HOLE, THIRD_HOLE, -400_000_000, 650_000_000),
    ],
    meets: (
        Met::UpTo(100_000_000),
        Met::UpTo(-400_000_000),
        Met::UpTo(100_000_000),
    ),
    ..NOTHING
};

/// Reasons for rings and for gaps, the waivers that waive nothing, a limit, how many findings are waived, and the text.
type WaivedRow = (Acceptances<'static>, Option<usize>, u128, &'static str);

/// Reports with waivers of three rings and three gaps: all are waived; one is not; a limit cuts among the gaps; and reasons for fewer
/// findings than there are waive no more.
const WAIVED: [WaivedRow; 4] = [
    (
        Acceptances {
            rings: &RINGS,
            gaps: &GAPS,
            idle: &[8],
        },
        None,
        6,
        "rules: annular ring 0.1 mm, hole to hole 0.25 mm\n\
        annular ring on top_layer: 3 of 245 holes below the rule, 3 waived\n  \
        #1 hole 1 of pth, 0.4 at 0,0: no pad at the hole, waived: milled\n  \
        #2 hole 2 of pth, 0.4 at 0,0: no pad at the hole, waived: milled\n  \
        #3 hole 3 of pth, 0.4 at 0,0: no pad at the hole, waived: by hand\n\
        hole to hole: 3 gaps too small, 3 waived\n  \
        #4 hole 1 of pth, 0.4 at 0,0, and hole 1 of pth, 0.4 at 0,0: gap -0.4 (rule 0.25), waived: drilled \"twice\"\n  \
        #5 hole 2 of pth, 0.4 at 0,0, and hole 2 of pth, 0.4 at 0,0: gap -0.4 (rule 0.25), waived: x\n  \
        #6 hole 3 of pth, 0.4 at 0,0, and hole 3 of pth, 0.4 at 0,0: gap -0.4 (rule 0.25), waived: y\n\
        3 no pad at the hole: no pad was flashed here, or it is drawn or of a shape that is not judged, or the drill file has another origin or format: see `ringcheck explain none`\n\
        smallest gap -0.4 (rule 0.25)\n\
        annular ring 0.1 is met; hole to hole -0.4 is met\n\
        waiver 8 matches no finding\n\
        WAIVED 6\n",
    ),
    (
        Acceptances {
            rings: &[Some("milled"), None, Some("by hand")],
            gaps: &GAPS,
            idle: &[2, 9],
        },
        Some(2),
        5,
        "rules: annular ring 0.1 mm, hole to hole 0.25 mm\n\
        annular ring on top_layer: 3 of 245 holes below the rule, 2 waived\n  \
        #1 hole 1 of pth, 0.4 at 0,0: no pad at the hole, waived: milled\n  \
        #2 hole 2 of pth, 0.4 at 0,0: no pad at the hole\n  \
        and 1 more\n\
        hole to hole: 3 gaps too small, 3 waived\n  \
        and 3 more\n\
        3 no pad at the hole: no pad was flashed here, or it is drawn or of a shape that is not judged, or the drill file has another origin or format: see `ringcheck explain none`\n\
        smallest gap -0.4 (rule 0.25)\n\
        annular ring 0.1 is met; hole to hole -0.4 is met\n\
        waiver 2 matches no finding\n\
        waiver 9 matches no finding\n\
        FINDINGS 1\n",
    ),
    (
        Acceptances {
            rings: &RINGS,
            gaps: &[],
            idle: &[],
        },
        Some(4),
        3,
        "rules: annular ring 0.1 mm, hole to hole 0.25 mm\n\
        annular ring on top_layer: 3 of 245 holes below the rule, 3 waived\n  \
        #1 hole 1 of pth, 0.4 at 0,0: no pad at the hole, waived: milled\n  \
        #2 hole 2 of pth, 0.4 at 0,0: no pad at the hole, waived: milled\n  \
        #3 hole 3 of pth, 0.4 at 0,0: no pad at the hole, waived: by hand\n\
        hole to hole: 3 gaps too small\n  \
        #4 hole 1 of pth, 0.4 at 0,0, and hole 1 of pth, 0.4 at 0,0: gap -0.4 (rule 0.25)\n  \
        and 2 more\n\
        3 no pad at the hole: no pad was flashed here, or it is drawn or of a shape that is not judged, or the drill file has another origin or format: see `ringcheck explain none`\n\
        smallest gap -0.4 (rule 0.25)\n\
        annular ring 0.1 is met; hole to hole -0.4 is met\n\
        FINDINGS 3\n",
    ),
    (
        Acceptances {
            rings: &[],
            gaps: &[None, Some("milled")],
            idle: &[],
        },
        Some(0),
        1,
        "rules: annular ring 0.1 mm, hole to hole 0.25 mm\n\
        annular ring on top_layer: 3 of 245 holes below the rule\n  \
        and 3 more\n\
        hole to hole: 3 gaps too small, 1 waived\n  \
        and 3 more\n\
        3 no pad at the hole: no pad was flashed here, or it is drawn or of a shape that is not judged, or the drill file has another origin or format: see `ringcheck explain none`\n\
        smallest gap -0.4 (rule 0.25)\n\
        annular ring 0.1 is met; hole to hole -0.4 is met\n\
        FINDINGS 5\n",
    ),
];

fn has_waived(alloc: Global, report: &BoardReport, row: &WaivedRow) -> bool {
    let (accepted, limit, waived, text) = row;
    match text_of(alloc, &HOLED, report, *limit, accepted) {
        Ok(written) => written.as_str() == *text && count_waived(report, accepted) == *waived,
        Err(_) => false,
    }
}

/// Whether a report has with waivers the text and the count of a row.
fn is_waived_so(alloc: Global, findings: &ReportRow, row: &WaivedRow) -> bool {
    match report_of(alloc, findings) {
        Ok(report) => has_waived(alloc, &report, row),
        Err(_) => false,
    }
}

#[test]
fn reasons_stand_in_the_lines_of_waived_findings(rt: HostRuntime) {
    for row in &WAIVED {
        assert!(rt; is_waived_so(rt.alloc(), &THREE_OF_EACH, row), "{}", row.3);
    }
}

/// A waiver that waives nothing.
const IDLE: WaivedRow = (
    Acceptances {
        rings: &RINGS,
        gaps: &[],
        idle: &[2],
    },
    None,
    0,
    "rules: annular ring 0 mm, hole to hole 0.000000001 mm\nhole to hole: 0 gaps too small\nannular ring 0 is met; hole to hole 0.000000001 is met\nwaiver 2 matches no finding\nPASS\n",
);

#[test]
fn a_waiver_that_waives_nothing_leaves_a_pass(rt: HostRuntime) {
    assert!(rt; is_waived_so(rt.alloc(), &NOTHING, &IDLE));
}

/// A hole in a pad that is too small for it.
const IN_PAD: RingRow = (0, FIRST_HOLE, CauseRow::Edge(1, 0, 100_000_000));

/// What a package meets (ring, gap and ring of holes in pads), the rings that lack, and the line.
type MetRow = ((Met, Met, Met), &'static [RingRow], &'static str);

const MEETS: [MetRow; 7] = [
    (
        (Met::Any, Met::Any, Met::Any),
        &[],
        "\nany annular ring is met; any hole to hole gap is met\n",
    ),
    (
        (
            Met::UpTo(149_000_000),
            Met::UpTo(-1),
            Met::UpTo(149_000_000),
        ),
        &[],
        "\nannular ring 0.149 is met; hole to hole -0.000000001 is met\n",
    ),
    (
        (Met::None, Met::None, Met::None),
        &[],
        "\nno annular ring is met; no hole to hole gap is met\n",
    ),
    (
        (Met::None, Met::Any, Met::None),
        &[(0, FIRST_HOLE, CauseRow::NoFlash)],
        "\nno annular ring is met: 1 finding is of a hole with no pad that counts; any hole to hole gap is met\n",
    ),
    (
        (Met::None, Met::UpTo(200_000_000), Met::UpTo(149_000_000)),
        &[(0, FIRST_HOLE, CauseRow::Oblique), IN_PAD],
        "\nno annular ring is met: 1 finding is of a hole with no pad that counts (without it: 0.149); hole to hole 0.2 is met\n",
    ),
    (
        (Met::None, Met::UpTo(200_000_000), Met::UpTo(-1_000_000)),
        &[
            (0, FIRST_HOLE, CauseRow::Clear(1)),
            IN_PAD,
            (0, SECOND_HOLE, CauseRow::Other(Why::Macro, 1)),
        ],
        "\nno annular ring is met: 2 findings are of holes with no pad that counts (without them: -0.001); hole to hole 0.2 is met\n",
    ),
    (
        (Met::None, Met::Any, Met::Any),
        &[
            (0, FIRST_HOLE, CauseRow::Cleared(1)),
            (0, SECOND_HOLE, CauseRow::NoFlash),
        ],
        "\nno annular ring is met: 2 findings are of holes with no pad that counts; any hole to hole gap is met\n",
    ),
];

/// Whether this stands in the text of a report.
fn has_line(alloc: Global, report: &BoardReport, line: &str) -> bool {
    match ReportText::new(alloc, &HOLED, report, 0, None, None, &no_acceptances()) {
        Ok(text) => match format!(in alloc; "{text}") {
            Ok(written) => written.as_str().contains(line),
            Err(_) => false,
        },
        Err(_) => false,
    }
}

#[test]
fn what_a_package_meets_is_said(rt: HostRuntime) -> Result<(), RowFail> {
    for (meets, rings, line) in MEETS {
        let row = ReportRow {
            rings,
            meets,
            ..NOTHING
        };
        let report = report_of(rt.alloc(), &row)?;
        assert!(rt; has_line(rt.alloc(), &report, line), "{line}");
    }
    Ok(())
}

/// A writer that fails at one call, and takes what comes before and after it.
#[derive(Drop)]
struct Failing {
    calls: usize,
    fails_at: usize,
}

impl Write for Failing {
    fn write_str(&mut self, _text: &str) -> fmt::Result {
        self.calls = self.calls.saturating_add(1);
        if self.calls == self.fails_at {
            return Err(fmt::Error);
        }
        Ok(())
    }
}

/// The reasons for all findings, and a waiver that waives nothing.
const ALL: Acceptances<'static> = Acceptances {
    rings: &RINGS,
    gaps: &GAPS,
    idle: &[8],
};

/// Whether a text is cut where a writer fails at this call, and nothing is written after it.
fn is_text_cut_at(text: &ReportText, fails_at: usize) -> bool {
    let mut out = Failing { calls: 0, fails_at };
    let is_cut = write!(out, "{text}").is_err();
    is_cut && out.calls == fails_at
}

/// Whether the text of a report is so.
fn is_cut_at(alloc: Global, report: &BoardReport, fails_at: usize) -> bool {
    match ReportText::new(alloc, &HOLED, report, 1, None, None, &ALL) {
        Ok(text) => is_text_cut_at(&text, fails_at),
        Err(_) => false,
    }
}

#[test]
fn nothing_is_printed_after_a_write_that_fails(rt: HostRuntime) -> Result<(), RowFail> {
    let report = report_of(rt.alloc(), &THREE_OF_EACH)?;
    for fails_at in 1..=100 {
        assert!(rt; is_cut_at(rt.alloc(), &report, fails_at), "at {fails_at}");
    }
    Ok(())
}

/// The last lines of a report with six findings, by how many of these the wide profile does not have.
const FEWER: [(u128, &str); 3] = [
    (0, "\nFINDINGS 6\n"),
    (
        1,
        "\n1 of these 6 findings disappears with --profile wide, which counts pads with rounded corners\nFINDINGS 6\n",
    ),
    (
        4,
        "\n4 of these 6 findings disappear with --profile wide, which counts pads with rounded corners\nFINDINGS 6\n",
    ),
];

/// Whether the text of a report ends so where the wide profile does not have this many of its findings.
fn ends_with(alloc: Global, report: &BoardReport, fewer: u128, end: &str) -> bool {
    match ReportText::new(alloc, &HOLED, report, fewer, None, None, &no_acceptances()) {
        Ok(text) => is_ended_so(alloc, &text, end),
        Err(_) => false,
    }
}

/// Whether a text ends so.
fn is_ended_so(alloc: Global, text: &ReportText, end: &str) -> bool {
    match format!(in alloc; "{text}") {
        Ok(written) => written.as_str().ends_with(end),
        Err(_) => false,
    }
}

#[test]
fn findings_that_the_wide_profile_does_not_have_are_counted(
    rt: HostRuntime,
) -> Result<(), RowFail> {
    let report = report_of(rt.alloc(), &THREE_OF_EACH)?;
    for (fewer, end) in FEWER {
        assert!(rt; ends_with(rt.alloc(), &report, fewer, end), "{fewer}");
    }
    let report = report_of(rt.alloc(), &HIT_TWICE)?;
    let end =
        "\nthis finding disappears with --profile wide, which counts pads with rounded corners\nFINDINGS 1\n";
    assert!(rt; ends_with(rt.alloc(), &report, 1, end));
    Ok(())
}
