//! Reports on small packages, with the figures of the worked examples, in pm.

use board_report::*;
use grid_units::{Profile, Rules};
use package_check::{File, Keep, Role, Said, read_package};
use report::{RingCause, RingLack, RoleConflict};
use std::alloc::Global;
use std::test::Fail;

/// A square of 0.65 mm, 1 nm off the origin.
const MOVED: &[u8] = b"%FSLAX46Y46*%\n%MOMM*%\n%ADD10R,0.65X0.65*%\nD10*\nX1Y0D03*\nM02*\n";

/// A macro flash at the origin, and a disc of 1 mm at 5 mm.
const MACRO: &[u8] =
    b"%FSLAX46Y46*%\n%MOMM*%\n%AMRING*1,1,1.0,0,0*%\n%ADD10RING*%\n%ADD11C,1.0*%\nD10*\nX0Y0D03*\nD11*\nX5000000Y0D03*\nM02*\n";

/// A disc of 0.65 mm at the origin.
const DISC: &[u8] = b"%FSLAX46Y46*%\n%MOMM*%\n%ADD10C,0.65*%\nD10*\nX0Y0D03*\nM02*\n";

/// A hole of 0.4 mm at the origin.
const HIT: &[u8] = b"M48\nMETRIC\nT1C0.4\n%\nT1\nX0.0Y0.0\nM30\n";

/// No hole.
const NO_HIT: &[u8] = b"M48\nMETRIC\nT1C0.4\n%\nT1\nM30\n";

/// The same hole twice.
const TWICE: &[u8] = b"M48\nMETRIC\nT1C0.4\n%\nT1\nX0.0Y0.0\nX0.0Y0.0\nM30\n";

fn file<'a>(role: Role, bytes: &'a [u8]) -> File<'a> {
    File {
        role,
        name: "file",
        said: Said {
            span: None,
            format: None,
        },
        bytes,
    }
}

/// The report on the board of some files, in the profile of the rules.
fn report_of(alloc: Global, files: &[File], rules: Rules) -> Result<BoardReport, Fail> {
    let board = read_package(alloc, rules.profile(), files, Keep::Rows)
        .ok()
        .ok_or("refused")?;
    Ok(report_on(alloc, &board, rules)?)
}

/// The report on a layer and a plated drill file in a profile, under a ring in pm and a gap of 0.25 mm.
fn report_in(
    rt: HostRuntime,
    profile: Profile,
    layer: &[u8],
    drill: &[u8],
    ring: i64,
) -> Result<BoardReport, Fail> {
    let files = [file(Role::Copper, layer), file(Role::Plated, drill)];
    let rules = Rules::new(ring, 250_000_000).ok().ok_or("rules")?;
    report_of(rt.alloc(), &files, rules.in_profile(profile))
}

/// The word for a cause, the number of its flash, the ring and the lack.
fn cause_words(cause: RingCause) -> (&'static str, usize, i64, i64) {
    match cause {
        RingCause::TooSmall(pad) => ("small", pad.flash, pad.ring, pad.lack),
        RingCause::OffCentre(pad) => ("off", pad.flash, pad.ring, pad.lack),
        RingCause::Edge(pad) => ("edge", pad.flash, pad.ring, pad.lack),
        RingCause::Other { flash, .. } => ("other", flash, 0, 0),
        RingCause::Clear { flash } => ("clear", flash, 0, 0),
        RingCause::Cleared { flash } => ("cleared", flash, 0, 0),
        RingCause::MacroShape | RingCause::DrawnCopper | RingCause::NoFlash => ("nothing", 0, 0, 0),
        RingCause::Oblique => ("oblique", 0, 0, 0),
    }
}

/// The number of rings in a report, and the words for the first of them.
fn first_ring(report: &BoardReport) -> RingRow {
    match report.rings.first() {
        Some(lack) => (report.rings.len(), cause_words(lack.cause)),
        None => NO_RING,
    }
}

/// The number of gaps in a report, and the first gap and its lack.
fn first_gap(report: &BoardReport) -> (usize, i64, i64) {
    match report.gaps.first() {
        Some(lack) => (report.gaps.len(), lack.gap, lack.lack),
        None => (0, 0, 0),
    }
}

/// The number of rings, and the words for the first of them.
type RingRow = (usize, (&'static str, usize, i64, i64));

const NO_RING: RingRow = (0, ("none", 0, 0, 0));

/// A layer, a drill file, the ring, and the number and the first of the rings and of the gaps: a hole off the centre of its pad, a board
/// that passes, a hole in a macro flash, and a hole that is hit twice.
const REPORTS: [(&[u8], &[u8], i64, RingRow, (usize, i64, i64)); 4] = [
    (
        MOVED,
        HIT,
        125_000_000,
        (1, ("off", 1, 124_999_000, 1_000)),
        (0, 0, 0),
    ),
    (MOVED, HIT, 124_999_000, NO_RING, (0, 0, 0)),
    (MACRO, HIT, 100_000_000, (1, ("other", 1, 0, 0)), (0, 0, 0)),
    (
        DISC,
        TWICE,
        125_000_000,
        NO_RING,
        (1, -400_000_000, 650_000_000),
    ),
];

#[test]
fn reports_have_their_rings_and_gaps(rt: HostRuntime) -> Result<(), Fail> {
    for &(layer, drill, ring, first, gap) in &REPORTS {
        let report = report_in(rt, Profile::Strict, layer, drill, ring)?;
        assert!(rt; first_ring(&report) == first && first_gap(&report) == gap);
    }
    Ok(())
}

/// A square of 1 mm whose corners have a radius of 0.25 mm, by a macro.
const ROUNDED: &[u8] =
    b"%FSLAX46Y46*%\n%MOMM*%\nG01*\n%AMRoundRect*4,1,4,$2,$3,$4,$5,$6,$7,$8,$9,$2,$3,0*1,1,$1+$1,$2,$3*1,1,$1+$1,$4,$5*1,1,$1+$1,$6,$7*1,1,$1+$1,$8,$9*20,1,$1+$1,$2,$3,$4,$5,0*20,1,$1+$1,$4,$5,$6,$7,0*20,1,$1+$1,$6,$7,$8,$9,0*20,1,$1+$1,$8,$9,$2,$3,0*%\n%ADD10RoundRect,0.25X-0.25X0.25X-0.25X-0.25X0.25X-0.25X0.25X0.25*%\nD10*\nX0Y0D03*\nM02*\n";

/// A line from -0.5,-0.5 mm to 0.5,0.5 mm with round ends of a radius of 0.5 mm, by a macro.
const OVAL: &[u8] =
    b"%FSLAX46Y46*%\n%MOMM*%\nG01*\n%AMHorizOval*20,1,$1,$2,$3,$4,$5,0*1,1,$1,$2,$3*1,1,$1,$4,$5*%\n%ADD10HorizOval,1.0X-0.5X-0.5X0.5X0.5*%\nD10*\nX0Y0D03*\nM02*\n";

/// The contour of a diamond whose sides are 1.2 mm from its centre.
const DIAMOND: &[u8] =
    b"%FSLAX46Y46*%\n%MOMM*%\nG01*\nG36*\nX1500000Y0D02*\nX0Y2000000D01*\nX-1500000Y0D01*\nX0Y-2000000D01*\nX1500000Y0D01*\nG37*\nM02*\n";

/// A disc of 0.65 mm at the origin, which a clear flash at 5 mm may take away, and these the other way round.
const CLEARED: &[u8] =
    b"%FSLAX46Y46*%\n%MOMM*%\nG01*\n%ADD10C,0.65*%\nD10*\nX0Y0D03*\n%LPC*%\nX5000000Y0D03*\nM02*\n";

const CLEAR: &[u8] =
    b"%FSLAX46Y46*%\n%MOMM*%\nG01*\n%ADD10C,0.65*%\nD10*\nX5000000Y0D03*\n%LPC*%\nX0Y0D03*\nM02*\n";

/// A layer, a drill file, and the number and the first of the rings in the wide profile under a ring of 0.125 mm.
const WIDE_REPORTS: [(&[u8], &[u8], RingRow); 7] = [
    // 0.5 - 0.175 - 0.2 is the ring, and 0.5 - 0.175001 - 0.2 is less.
    (
        ROUNDED,
        b"M48\nMETRIC\nT1C0.4\n%\nT1\nX0.175Y0.175\nM30\n",
        NO_RING,
    ),
    (
        ROUNDED,
        b"M48\nMETRIC\nT1C0.4\n%\nT1\nX0.175001Y0.0\nM30\n",
        (1, ("edge", 1, 124_999_000, 1_000)),
    ),
    // 1.2 - 1.075001
    (
        DIAMOND,
        b"M48\nMETRIC\nT1C2.150002\n%\nT1\nX0.0Y0.0\nM30\n",
        (1, ("edge", 1, 124_999_000, 1_000)),
    ),
    // An oblique slot whose ends are just held, and one that is wider by 1 nm on each side.
    (
        OVAL,
        b"M48\nMETRIC\nT1C0.75\n%\nT1\nX-0.5Y-0.5G85X0.5Y0.5\nM30\n",
        NO_RING,
    ),
    (
        OVAL,
        b"M48\nMETRIC\nT1C0.750002\n%\nT1\nX-0.5Y-0.5G85X0.5Y0.5\nM30\n",
        (1, ("edge", 1, 124_999_000, 1_000)),
    ),
    (CLEARED, HIT, (1, ("cleared", 1, 0, 0))),
    (CLEAR, HIT, (1, ("clear", 2, 0, 0))),
];

#[test]
fn reports_in_the_wide_profile_have_their_causes(rt: HostRuntime) -> Result<(), Fail> {
    for &(layer, drill, first) in &WIDE_REPORTS {
        let report = report_in(rt, Profile::Wide, layer, drill, 125_000_000)?;
        assert!(rt; first_ring(&report) == first, "of {} bytes", layer.len());
    }
    Ok(())
}

/// The report on three layers and three drill files, the second of them without holes.
fn report_on_six(rt: HostRuntime) -> Result<BoardReport, Fail> {
    let files = [
        file(Role::Copper, DISC),
        file(Role::Plated, HIT),
        file(Role::Copper, DISC),
        file(Role::Plated, NO_HIT),
        file(Role::Plated, TWICE),
        file(Role::Copper, DISC),
    ];
    let rules = Rules::new(150_000_000, 1).ok().ok_or("rules")?;
    report_of(rt.alloc(), &files, rules)
}

/// By layer and then by hole: the layer, the index of the drill file, and the number of the hole.
const PLACES: [(usize, usize, usize); 9] = [
    (0, 1, 1),
    (0, 4, 1),
    (0, 4, 2),
    (1, 1, 1),
    (1, 4, 1),
    (1, 4, 2),
    (2, 1, 1),
    (2, 4, 1),
    (2, 4, 2),
];

/// Whether a hole at this place lacks its ring in the disc.
fn is_small_at(lack: &RingLack, place: (usize, usize, usize)) -> bool {
    (lack.layer, lack.at.place.drill, lack.at.place.number) == place
        && cause_words(lack.cause) == ("small", 1, 125_000_000, 25_000_000)
}

/// No disc leaves the required ring, and each pair of holes is in the report.
#[test]
fn findings_come_by_layer_and_hole(rt: HostRuntime) -> Result<(), Fail> {
    let report = report_on_six(rt)?;
    let mut rings = report.rings.iter();
    for &place in &PLACES {
        let lack = rings.next().ok_or("a ring is missing")?;
        assert!(rt; is_small_at(lack, place), "of {}", place.0);
    }
    assert!(rt; (report.rings.len(), report.gaps.len()) == (9, 3));
    Ok(())
}

/// A hole at the origin of which a comment says that it is plated.
const SAID_PLATED: &[u8] = b"M48\nMETRIC\n;TYPE=PLATED\nT1C0.4\n%\nT1\nX0.0Y0.0\nM30\n";

/// One of which a comment says that it is not.
const SAID_UNPLATED: &[u8] = b"M48\nMETRIC\n;TYPE=NON_PLATED\nT1C0.4\n%\nT1\nX0.0Y0.0\nM30\n";

/// A drill file, by its role and its text.
type DrillRow = (Role, &'static [u8]);

/// Two drill files that come after a copper file, the profile, and those whose comments contradict their role.
const CONFLICTS: [(Profile, [DrillRow; 2], &[RoleConflict]); 5] = [
    (
        Profile::Strict,
        [(Role::Plated, SAID_PLATED), (Role::Unplated, SAID_UNPLATED)],
        &[],
    ),
    (
        Profile::Strict,
        [(Role::Plated, HIT), (Role::Unplated, HIT)],
        &[],
    ),
    (
        Profile::Strict,
        [(Role::Plated, SAID_PLATED), (Role::Unplated, SAID_PLATED)],
        &[RoleConflict {
            drill: 2,
            plated: false,
        }],
    ),
    (
        Profile::Wide,
        [
            (Role::Plated, SAID_UNPLATED),
            (Role::Unplated, SAID_UNPLATED),
        ],
        &[RoleConflict {
            drill: 1,
            plated: true,
        }],
    ),
    (
        Profile::Strict,
        [(Role::Unplated, SAID_PLATED), (Role::Plated, SAID_UNPLATED)],
        &[
            RoleConflict {
                drill: 1,
                plated: false,
            },
            RoleConflict {
                drill: 2,
                plated: true,
            },
        ],
    ),
];

#[test]
fn contradicted_roles_are_told(rt: HostRuntime) -> Result<(), Fail> {
    for &(profile, drills, conflicts) in &CONFLICTS {
        let [first, second] = drills;
        let files = [
            file(Role::Copper, DISC),
            file(first.0, first.1),
            file(second.0, second.1),
        ];
        let rules = Rules::new(125_000_000, 1).ok().ok_or("rules")?;
        let report = report_of(rt.alloc(), &files, rules.in_profile(profile))?;
        assert!(rt; report.conflicts.as_slice() == conflicts);
    }
    Ok(())
}
