//! The rules that small packages meet, in pm; and that their check agrees.

mod made;

use board::Met;
use board_report::{files_with_holes, measure_board, place_among, place_of};
use grid_units::{Fault, Profile, Reason, Rules};
use package_check::{
    File, Keep, PackageFault, Role, Said, check_bytes, measure_bytes, read_package,
};
use report::{GapLine, HolePlace, LeastRing, Meets, RingLine, UnitFactor, UnitMistake};
use std::alloc::Global;
use std::test::Fail as Failure;

/// A layer in millimetres with six decimals: a square of 0.65 mm.
const SQUARE: &[u8] = b"%FSLAX46Y46*%\n%MOMM*%\n%ADD10R,0.65X0.65*%\nD10*\nX0Y0D03*\nM02*\n";

const MOVED: &[u8] = b"%FSLAX46Y46*%\n%MOMM*%\n%ADD10R,0.65X0.65*%\nD10*\nX1Y0D03*\nM02*\n";

const SMALL: &[u8] = b"%FSLAX46Y46*%\n%MOMM*%\n%ADD10C,0.3*%\nD10*\nX0Y0D03*\nM02*\n";

const NO_FLASH: &[u8] = b"%FSLAX46Y46*%\n%MOMM*%\n%ADD10C,0.3*%\nD10*\nM02*\n";

const DISC: &[u8] = b"%FSLAX46Y46*%\n%MOMM*%\n%ADD10C,0.65*%\nD10*\nX0Y0D03*\nM02*\n";

const TWO: &[u8] = b"%FSLAX46Y46*%\n%MOMM*%\n%ADD10C,2*%\nD10*\nX0Y0D03*\nM02*\n";

const FOUR: &[u8] = b"%FSLAX46Y46*%\n%MOMM*%\n%ADD10C,4*%\nD10*\nX0Y0D03*\nM02*\n";

const HIT: &[u8] = b"M48\nMETRIC\nT1C0.4\n%\nT1\nX0.0Y0.0\nM30\n";

const NO_HIT: &[u8] = b"M48\nMETRIC\nT1C0.4\n%\nT1\nM30\n";

const TWICE: &[u8] = b"M48\nMETRIC\nT1C0.4\n%\nT1\nX0.0Y0.0\nX0.0Y0.0\nM30\n";

const NEAR: &[u8] = b"M48\nMETRIC\nT1C0.4\n%\nT1\nX0.0Y0.0\nX0.3Y0.4\nM30\n";

const FAR: &[u8] = b"M48\nMETRIC\nT1C0.4\n%\nT1\nX0.0Y0.0\nX1.0Y1.0\nM30\n";

const WIDE: &[u8] = b"%FSLAX46Y46*%\n%MOMM*%\n%ADD10C,1.65*%\nD10*\nX0Y0D03*\nM02*\n";

const BESIDE: &[u8] = b"M48\nMETRIC\nT1C0.4\n%\nT1\nX0.300001Y0.4\nM30\n";

const PAIR: &[u8] =
    b"%FSLAX46Y46*%\n%MOMM*%\n%ADD10C,0.6*%\nD10*\nX100000Y0D03*\nX-100000Y0D03*\nM02*\n";

const TWO_TOOLS: &[u8] = b"M48\nMETRIC\nT1C0.4\nT2C0.3\n%\nT1\nX0.0Y0.0\nT2\nX0.1Y0.0\nM30\n";

const DISCS: &[u8] =
    b"%FSLAX46Y46*%\n%MOMM*%\n%ADD10C,0.6*%\nD10*\nX10000000Y0D03*\nX20000000Y0D03*\nX30000000Y10000000D03*\nM02*\n";

const TENTHS: &[u8] = b"M48\nMETRIC\nT1C0.4\n%\nT1\nX1.0Y0.0\nX2.0Y0.0\nX3.0Y1.0\nM30\n";

const ONE_BARE: &[u8] = b"M48\nMETRIC\nT1C0.4\n%\nT1\nX0.0Y0.0\nX9.0Y9.0\nM30\n";

const SLOT: &[u8] = b"M48\nMETRIC\nT1C0.5\n%\nT1\nX0.0Y0.0G85X2.0Y0.0\nX1.0Y0.75\nM30\n";

fn file<'a>(role: Role, name: &'a str, bytes: &'a [u8]) -> File<'a> {
    File {
        role,
        name,
        said: Said {
            span: None,
            format: None,
        },
        bytes,
    }
}

/// A layer, and a drill file of this role.
fn files_as<'a>(role: Role, layer: &'a [u8], holes: &'a [u8]) -> [File<'a>; 2] {
    [file(Role::Copper, "top", layer), file(role, "pth", holes)]
}

fn files<'a>(layer: &'a [u8], holes: &'a [u8]) -> [File<'a>; 2] {
    files_as(Role::Plated, layer, holes)
}

/// Whether the check of the files passes.
fn passes(alloc: Global, files: &[File], ring: i64, gap: i64) -> Option<bool> {
    let rules = Rules::new(ring, gap).ok()?;
    let report = check_bytes(alloc, files, rules).ok()?;
    Some(report.findings().is_empty())
}

/// Whether the check agrees with the greatest ring: it passes with this ring, and not with 1 pm more.
fn agrees_on_rings(alloc: Global, files: &[File], ring: Met) -> Option<bool> {
    match ring {
        Met::Any => passes(alloc, files, 5_000_000_000_000, 1),
        Met::UpTo(most) if most < 0 => Some(!passes(alloc, files, 0, 1)?),
        Met::UpTo(most) => {
            let above = passes(alloc, files, most.saturating_add(1), 1)?;
            Some(passes(alloc, files, most, 1)? && !above)
        }
        Met::None => Some(!passes(alloc, files, 0, 1)?),
    }
}

/// The rules that a layer and a plated drill file meet, and their least gap.
fn measured(
    alloc: Global,
    layer: &[u8],
    drill: &[u8],
) -> Result<(Meets, Option<GapLine>), Failure> {
    let files = files(layer, drill);
    let measure = measure_bytes(alloc, Profile::Strict, &files)
        .ok()
        .ok_or("no measure")?;
    Ok((measure.meets, measure.gap))
}

/// A layer, a drill file, and the greatest ring of its one hole.
const RINGS: [(&[u8], &[u8], Met); 5] = [
    (SQUARE, HIT, Met::UpTo(125_000_000)),
    (MOVED, HIT, Met::UpTo(124_999_000)),
    (SMALL, HIT, Met::UpTo(-50_000_000)),
    (NO_FLASH, HIT, Met::None),
    (SQUARE, NO_HIT, Met::Any),
];

#[test]
fn rings_of_one_hole(rt: HostRuntime) -> Result<(), Failure> {
    let alloc = rt.alloc();
    for &(layer, drill, ring) in &RINGS {
        let (meets, gap) = measured(alloc, layer, drill)?;
        let agrees = agrees_on_rings(alloc, &files(layer, drill), ring) == Some(true);
        assert!(rt; (meets.ring, meets.gap) == (ring, Met::Any) && gap.is_none() && agrees);
    }
    Ok(())
}

/// Whether the check agrees with the greatest ring and gap: it passes under both, and not with 1 pm more of either. A gap below 0 passes
/// under none.
fn agrees_on_both(alloc: Global, files: &[File], ring: i64, gap: i64) -> bool {
    passes(alloc, files, ring, gap.max(1)) == Some(gap > 0)
        && passes(alloc, files, ring, gap.max(0).saturating_add(1)) == Some(false)
        && passes(alloc, files, ring.saturating_add(1), gap.max(1)) == Some(false)
}

/// A layer, a drill file, and the greatest ring and gap of its two holes.
const BOTH: [(&[u8], &[u8], i64, i64); 3] = [
    (DISC, TWICE, 125_000_000, -400_000_000),
    (TWO, NEAR, 300_000_000, 100_000_000),
    (FOUR, FAR, 385_786_437, 1_014_213_562),
];

#[test]
fn gaps_of_two_holes(rt: HostRuntime) -> Result<(), Failure> {
    let alloc = rt.alloc();
    for &(layer, drill, ring, gap) in &BOTH {
        let (meets, _) = measured(alloc, layer, drill)?;
        let are_met = (meets.ring, meets.gap) == (Met::UpTo(ring), Met::UpTo(gap));
        assert!(rt; are_met && agrees_on_both(alloc, &files(layer, drill), ring, gap));
    }
    Ok(())
}

/// A square of 2 mm as a contour.
const CONTOUR: &[u8] =
    b"%FSLAX46Y46*%\n%MOMM*%\nG01*\nG36*\nX-1000000Y-1000000D02*\nX1000000D01*\nY1000000D01*\nX-1000000D01*\nY-1000000D01*\nG37*\nM02*\n";

/// A square of 2 mm with corners of the radius 0.25 mm, as a macro.
const ROUNDED: &[u8] =
    b"%FSLAX46Y46*%\n%MOMM*%\n%AMRR*21,1,2,1.5,0,0,0*21,1,1.5,2,0,0,0*1,1,0.5,0.75,0.75*1,1,0.5,-0.75,0.75*1,1,0.5,0.75,-0.75*1,1,0.5,-0.75,-0.75*%\n%ADD10RR*%\nD10*\nX0Y0D03*\nM02*\n";

/// A square of 0.65 mm that is taken away again.
const CLEARED: &[u8] =
    b"%FSLAX46Y46*%\n%MOMM*%\n%ADD10R,0.65X0.65*%\nD10*\nX0Y0D03*\n%LPC*%\nX0Y0D03*\nM02*\n";

const BESIDE_THE_MIDDLE: &[u8] = b"M48\nMETRIC\nT1C0.4\n%\nT1\nX0.5Y0.0\nM30\n";

const IN_A_CORNER: &[u8] = b"M48\nMETRIC\nT1C0.4\n%\nT1\nX0.75Y0.75\nM30\n";

const OBLIQUE: &[u8] = b"M48\nMETRIC\nT1C0.5\n%\nT1\nX0.0Y0.0G85X0.3Y0.4\nM30\n";

/// A layer, a drill file, and the greatest ring of its one hole in the wide profile. In the strict one the hole is bare, or the layer is refused.
const WIDE_RINGS: [(&[u8], &[u8], Met); 7] = [
    (CONTOUR, HIT, Met::UpTo(800_000_000)),
    (CONTOUR, BESIDE_THE_MIDDLE, Met::UpTo(300_000_000)),
    (CONTOUR, OBLIQUE, Met::UpTo(350_000_000)),
    (FOUR, OBLIQUE, Met::UpTo(1_250_000_000)),
    (ROUNDED, HIT, Met::UpTo(800_000_000)),
    (ROUNDED, IN_A_CORNER, Met::UpTo(50_000_000)),
    (CLEARED, HIT, Met::None),
];

/// The greatest ring of a package in a profile, or `None` where it is refused.
fn ring_in(alloc: Global, profile: Profile, files: &[File]) -> Option<Met> {
    let measure = measure_bytes(alloc, profile, files).ok()?;
    Some(measure.meets.ring)
}

#[test]
fn rings_in_both_profiles(rt: HostRuntime) {
    let alloc = rt.alloc();
    for &(layer, drill, ring) in &WIDE_RINGS {
        let files = files(layer, drill);
        let strict = ring_in(alloc, Profile::Strict, &files);
        let is_strict = matches!(strict, None | Some(Met::None));
        assert!(rt; is_strict && ring_in(alloc, Profile::Wide, &files) == Some(ring));
    }
}

fn gap_line(gap: i64, first: (usize, usize), second: (usize, usize)) -> GapLine {
    GapLine {
        gap,
        first: HolePlace {
            drill: first.0,
            number: first.1,
        },
        second: HolePlace {
            drill: second.0,
            number: second.1,
        },
    }
}

/// A layer, a drill file, and the gap between its first two holes.
const GAPS: [(&[u8], &[u8], i64); 5] = [
    (DISC, TWICE, -400_000_000),
    (TWO, NEAR, 100_000_000),
    (FOUR, FAR, 1_014_213_562),
    (FOUR, SLOT, 250_000_000),
    (DISCS, TENTHS, 600_000_000),
];

#[test]
fn lines_of_gaps(rt: HostRuntime) -> Result<(), Failure> {
    for &(layer, drill, gap) in &GAPS {
        let (_, line) = measured(rt.alloc(), layer, drill)?;
        assert!(rt; line == Some(gap_line(gap, (1, 1), (1, 2))), "of {gap}");
    }
    Ok(())
}

/// The first scale of a package of two layers with a drill file between them.
fn scale_of(
    rt: HostRuntime,
    first: &[u8],
    role: Role,
    second: &[u8],
) -> Result<Option<UnitMistake>, Failure> {
    let files = [
        file(Role::Copper, "first", first),
        file(role, "drill", TENTHS),
        file(Role::Copper, "second", second),
    ];
    let measure = measure_bytes(rt.alloc(), Profile::Strict, &files)
        .ok()
        .ok_or("no measure")?;
    Ok(measure.scales.first().copied())
}

/// The scale of a plated file, three holes that are bare and have their pads by ten, is judged by the pads of the first layer.
fn tenth(drill: usize) -> UnitMistake {
    UnitMistake {
        drill,
        bare: 3,
        factor: UnitFactor::Ten,
        then: 0,
    }
}

#[test]
fn a_scale(rt: HostRuntime) -> Result<(), Failure> {
    for &(first, role, second, is_scaled) in &[
        (DISCS, Role::Plated, NO_FLASH, true),
        (DISCS, Role::Unplated, NO_FLASH, false),
        (NO_FLASH, Role::Plated, DISCS, false),
    ] {
        let wanted = is_scaled.then_some(tenth(1));
        assert!(rt; scale_of(rt, first, role, second)? == wanted);
    }
    Ok(())
}

/// Four plated records of one drill file that is off by a factor, an unplated one, and a file without holes: each of the four has its line.
#[test]
fn scales_of_many_records(rt: HostRuntime) -> Result<(), Failure> {
    let files = [
        file(Role::Plated, "one", TENTHS),
        file(Role::Plated, "two", TENTHS),
        file(Role::Copper, "top", DISCS),
        file(Role::Unplated, "three", TENTHS),
        file(Role::Plated, "four", TENTHS),
        file(Role::Plated, "none", NO_HIT),
        file(Role::Plated, "five", TENTHS),
    ];
    let measure = measure_bytes(rt.alloc(), Profile::Strict, &files)
        .ok()
        .ok_or("no measure")?;
    let wanted = [tenth(0), tenth(1), tenth(4), tenth(6)];
    assert!(rt; measure.scales.as_slice() == wanted.as_slice());
    Ok(())
}

/// The nearest holes are in two files, and neither is the first of its file.
#[test]
fn a_gap_between_files(rt: HostRuntime) -> Result<(), Failure> {
    let two = b"M48\nMETRIC\nT1C0.2\n%\nT1\nX9.0Y9.0\nX1.0Y1.5\nM30\n";
    let files = [
        file(Role::Plated, "first", FAR),
        file(Role::Copper, "top", FOUR),
        file(Role::Unplated, "second", two),
    ];
    let measure = measure_bytes(rt.alloc(), Profile::Strict, &files)
        .ok()
        .ok_or("no measure")?;
    assert!(rt; measure.gap == Some(gap_line(200_000_000, (0, 2), (2, 2))));
    Ok(())
}

/// A layer, a drill file, the greatest ring, and that of the holes that are not bare.
const HELD: [(&[u8], &[u8], Met, Met); 4] = [
    (FOUR, FAR, Met::UpTo(385_786_437), Met::UpTo(385_786_437)),
    (FOUR, ONE_BARE, Met::None, Met::UpTo(1_800_000_000)),
    (DISCS, TENTHS, Met::None, Met::None),
    (SQUARE, NO_HIT, Met::Any, Met::Any),
];

#[test]
fn rings_that_are_held(rt: HostRuntime) -> Result<(), Failure> {
    for &(layer, drill, ring, held) in &HELD {
        let (meets, _) = measured(rt.alloc(), layer, drill)?;
        assert!(rt; (meets.ring, meets.in_pads) == (ring, held));
    }
    Ok(())
}

fn ring_line(diameter: i64, holes: usize, bare: usize, least: Option<(i64, usize)>) -> RingLine {
    let least = match least {
        Some((ring, hole)) => Some(LeastRing { ring, hole }),
        None => None,
    };
    RingLine {
        layer: 0,
        drill: 1,
        diameter,
        holes,
        bare,
        least,
    }
}

/// A layer, a drill file with holes of 0.4 mm, how many they are, how many of them are bare, and the least ring with its hole.
const ROWS: [(&[u8], &[u8], usize, usize, Option<(i64, usize)>); 11] = [
    (SQUARE, HIT, 1, 0, Some((125_000_000, 1))),
    (MOVED, HIT, 1, 0, Some((124_999_000, 1))),
    (SMALL, HIT, 1, 0, Some((-50_000_000, 1))),
    (WIDE, BESIDE, 1, 0, Some((124_999_399, 1))),
    (PAIR, HIT, 1, 0, Some((0, 1))),
    (NO_FLASH, HIT, 1, 1, None),
    (DISC, TWICE, 2, 0, Some((125_000_000, 1))),
    (TWO, NEAR, 2, 0, Some((300_000_000, 2))),
    (FOUR, FAR, 2, 0, Some((385_786_437, 2))),
    (FOUR, ONE_BARE, 2, 1, Some((1_800_000_000, 1))),
    (DISCS, TENTHS, 3, 3, None),
];

/// The number of the lines of rings, and the first of them.
fn first_row(
    alloc: Global,
    layer: &[u8],
    drill: &[u8],
) -> Result<(usize, Option<RingLine>), Failure> {
    let files = files(layer, drill);
    let measure = measure_bytes(alloc, Profile::Strict, &files)
        .ok()
        .ok_or("no measure")?;
    Ok((measure.rings.len(), measure.rings.first().copied()))
}

#[test]
fn lines_of_rings(rt: HostRuntime) -> Result<(), Failure> {
    for &(layer, drill, holes, bare, least) in &ROWS {
        let line = ring_line(400_000_000, holes, bare, least);
        assert!(rt; first_row(rt.alloc(), layer, drill)? == (1, Some(line)));
    }
    assert!(rt; first_row(rt.alloc(), SQUARE, NO_HIT)? == (0, None));
    Ok(())
}

/// Three layers and four drill files; one of these has no holes, and one is unplated.
fn seven_files<'a>() -> [File<'a>; 7] {
    [
        file(Role::Plated, "first", TWO_TOOLS),
        file(Role::Copper, "top", TWO),
        file(Role::Plated, "empty", NO_HIT),
        file(Role::Copper, "inner", DISC),
        file(Role::Plated, "second", HIT),
        file(Role::Copper, "bottom", FOUR),
        file(Role::Unplated, "third", FAR),
    ]
}

/// The layer, the drill file, the diameter, the least ring, and its hole. The lines are in order of layer, drill file and diameter;
/// unplated holes have none.
const LINES: [(usize, usize, i64, i64, usize); 9] = [
    (1, 0, 300_000_000, 750_000_000, 2),
    (1, 0, 400_000_000, 800_000_000, 1),
    (1, 4, 400_000_000, 800_000_000, 1),
    (3, 0, 300_000_000, 75_000_000, 2),
    (3, 0, 400_000_000, 125_000_000, 1),
    (3, 4, 400_000_000, 125_000_000, 1),
    (5, 0, 300_000_000, 1_750_000_000, 2),
    (5, 0, 400_000_000, 1_800_000_000, 1),
    (5, 4, 400_000_000, 1_800_000_000, 1),
];

/// The figures of a line. `None` where it has no least ring.
fn row_of(line: &RingLine) -> Option<(usize, usize, i64, i64, usize)> {
    let least = line.least?;
    Some((
        line.layer,
        line.drill,
        line.diameter,
        least.ring,
        least.hole,
    ))
}

#[test]
fn lines_in_their_order(rt: HostRuntime) -> Result<(), Failure> {
    let measure = measure_bytes(rt.alloc(), Profile::Strict, &seven_files())
        .ok()
        .ok_or("no measure")?;
    let mut lines = measure.rings.iter();
    for &row in &LINES {
        let line = lines.next().ok_or("a line is missing")?;
        assert!(rt; row_of(line) == Some(row), "of layer {}", row.0);
    }
    let gap = Some(gap_line(-400_000_000, (0, 1), (4, 1)));
    assert!(rt; measure.rings.len() == 9 && measure.gap == gap);
    Ok(())
}

/// The index of the drill file of each hole, and the number of the hole in it.
const PLACES: [(usize, usize); 5] = [(0, 1), (0, 2), (4, 1), (6, 1), (6, 2)];

/// `place_among` and `place_of` agree on each hole.
#[test]
fn places_of_holes(rt: HostRuntime) -> Result<(), Failure> {
    let board = read_package(rt.alloc(), Profile::Strict, &seven_files(), Keep::Pads)
        .ok()
        .ok_or("no board")?;
    let filled = files_with_holes(rt.alloc(), &board)?;
    assert!(rt; (filled.len(), board.holes().len()) == (3, 5));
    for hole in 0..board.holes().len() {
        let (drill, number) = PLACES.get(hole).copied().unwrap_or((0, 0));
        let place = HolePlace { drill, number };
        assert!(rt; place_of(&board, hole) == place && place_among(&filled, hole) == place);
    }
    Ok(())
}

/// Unplated holes need no ring, but a gap like all others.
#[test]
fn unplated_holes(rt: HostRuntime) -> Result<(), Failure> {
    let files = files_as(Role::Unplated, SMALL, FAR);
    let measure = measure_bytes(rt.alloc(), Profile::Strict, &files)
        .ok()
        .ok_or("no measure")?;
    let meets = measure.meets;
    assert!(rt; (meets.ring, meets.gap) == (Met::Any, Met::UpTo(1_014_213_562)));
    Ok(())
}

#[test]
fn what_is_refused_has_no_measure(rt: HostRuntime) {
    let refused = measure_bytes(rt.alloc(), Profile::Strict, &files(b"", HIT)).err();
    let fault = Fault {
        place: 1,
        byte: 0,
        reason: Reason::Truncated,
    };
    assert!(rt; refused == Some(PackageFault::File { index: 0, fault }));
}

/// The least ring of a line of rings, by its place.
fn least_ring(rings: &[RingLine], place: usize) -> Option<i64> {
    let least = rings.get(place)?.least;
    Some(least?.ring)
}

#[test]
fn best_pads_of_each_layer(rt: HostRuntime) -> Result<(), Failure> {
    let alloc = rt.alloc();
    let files = [
        file(Role::Copper, "top", SQUARE),
        file(Role::Copper, "inner", NO_FLASH),
        file(Role::Plated, "pth", HIT),
        file(Role::Copper, "bottom", TWO),
    ];
    let board = read_package(alloc, Profile::Strict, &files, Keep::Pads)
        .ok()
        .ok_or("no board")?;
    let rings = measure_board(alloc, &board, Profile::Strict)?.rings;
    let least = [0, 1, 2].map(|layer| least_ring(&rings, layer));
    let wanted = [Some(125_000_000), None, Some(800_000_000)];
    assert!(rt; rings.len() == 3 && least == wanted);
    Ok(())
}
