//! Packages that are made by a counter: a check passes under the rules that a measure allows, and fails 1 pm above.

use super::{file, passes};
use board::Met;
use grid_units::Profile;
use package_check::{File, Role, Said, Span, measure_bytes};
use report::Meets;
use std::alloc::{AllocError, Global};
use std::test::Fail as Failure;

/// The number of packages.
const PACKAGES: u32 = 160;

/// Numbers that follow from a counter, as from a random generator.
#[derive(Drop)]
struct Draws {
    state: u64,
}

impl Draws {
    /// The next number, below `count`.
    fn below(&mut self, count: u32) -> u32 {
        self.state = self
            .state
            .wrapping_mul(6_364_136_223_846_793_005)
            .wrapping_add(1_442_695_040_888_963_407);
        ((self.state >> 40) as u32) % count.max(1)
    }
}

/// A length in nanometres as millimetres with six decimals.
fn decimal(alloc: Global, length: u64) -> Result<String, AllocError> {
    let (whole, rest) = (length / 1_000_000, length % 1_000_000);
    format!(in alloc; "{whole}.{rest:06}")
}

/// A place on one axis, in nanometres: near the middle of a cell of 3 mm, at most 0.1 mm off.
fn place(draws: &mut Draws, cell: u32) -> u64 {
    u64::from(cell) * 3_000_000 + 1_400_000 + u64::from(draws.below(200_001))
}

/// A side of a pad, in nanometres.
fn side(draws: &mut Draws) -> u64 {
    1_300_000 + u64::from(draws.below(1_000_001))
}

/// A layer with a disc, a rectangle or an obround in most cells.
fn layer(alloc: Global, draws: &mut Draws, sign: &str) -> Result<String, AllocError> {
    let disc = decimal(alloc, side(draws))?;
    let (wide, high) = (decimal(alloc, side(draws))?, decimal(alloc, side(draws))?);
    let mut text = format!(in alloc;
        "%FSLAX46Y46*%\n%MOMM*%\n%ADD10C,{disc}*%\n%ADD11R,{wide}X{high}*%\n%ADD12O,{high}X{wide}*%\n"
    )?;
    for cell in 0..9_u32 {
        let (x, y) = (place(draws, cell % 3), place(draws, cell / 3));
        let code = draws.below(3).saturating_add(10);
        if draws.below(90) > 0 {
            let flash = format!(in alloc; "D{code}*\nX{sign}{x}Y{sign}{y}D03*\n")?;
            text.push_str(flash.as_str())?;
        }
    }
    text.push_str("M02*\n")?;
    Ok(text)
}

/// A round hole in a cell, or a slot along an axis.
fn hit(alloc: Global, draws: &mut Draws, sign: &str, cell: u32) -> Result<String, AllocError> {
    let (left, low) = (place(draws, cell % 3), place(draws, cell / 3));
    let long = u64::from(draws.below(300_001));
    let (x, y) = (decimal(alloc, left)?, decimal(alloc, low)?);
    let right = decimal(alloc, left.saturating_add(long))?;
    let high = decimal(alloc, low.saturating_add(long))?;
    match draws.below(4) {
        0 => format!(in alloc; "X{sign}{x}Y{sign}{y}G85X{sign}{right}Y{sign}{y}\n"),
        1 => format!(in alloc; "X{sign}{x}Y{sign}{y}G85X{sign}{x}Y{sign}{high}\n"),
        _ => format!(in alloc; "X{sign}{x}Y{sign}{y}\n"),
    }
}

/// A drill file with two tools, and holes in most cells of each third column, from `first` on.
fn drill(alloc: Global, draws: &mut Draws, sign: &str, first: u32) -> Result<String, AllocError> {
    let one = decimal(alloc, 250_000 + u64::from(draws.below(350_001)))?;
    let two = decimal(alloc, 250_000 + u64::from(draws.below(350_001)))?;
    let mut text = format!(in alloc; "M48\nMETRIC\nT1C{one}\nT2C{two}\n%\n")?;
    for cell in 0..9_u32 {
        if (cell % 3 == first && draws.below(9) > 0) || draws.below(200) == 0 {
            let tool = draws.below(2).saturating_add(1);
            let its = hit(alloc, draws, sign, cell)?;
            let hole = format!(in alloc; "T{tool}\n{its}")?;
            text.push_str(hole.as_str())?;
        }
    }
    text.push_str("M30\n")?;
    Ok(text)
}

/// The texts of up to three layers and three drill files.
fn texts(alloc: Global, draws: &mut Draws, layers: u32) -> Result<Vec<String>, AllocError> {
    let sign = if draws.below(2) == 0 { "-" } else { "" };
    let mut texts = Vec::new(alloc);
    for _ in 0..layers {
        texts.push(layer(alloc, draws, sign)?)?;
    }
    for first in 0..draws.below(3).saturating_add(1) {
        texts.push(drill(alloc, draws, sign, first)?)?;
    }
    Ok(texts)
}

/// The role and span of a drill file: one in three is unplated, and one in three goes through some layers only.
fn part(draws: &mut Draws, layers: u32) -> (Role, Option<Span>) {
    let first = draws.below(layers);
    let last = first.saturating_add(draws.below(layers.saturating_sub(first)));
    match draws.below(3) {
        0 => (Role::Unplated, None),
        1 => (
            Role::Plated,
            Span::new(first.saturating_add(1), last.saturating_add(1)),
        ),
        _ => (Role::Plated, None),
    }
}

/// The roles and spans of `count` files; the first `layers` of them are layers.
fn parts(
    alloc: Global,
    draws: &mut Draws,
    layers: u32,
    count: usize,
) -> Result<Vec<(Role, Option<Span>)>, AllocError> {
    let mut parts = Vec::new(alloc);
    for index in 0..count {
        if index < layers as usize {
            parts.push((Role::Copper, None))?;
        } else {
            parts.push(part(draws, layers))?;
        }
    }
    Ok(parts)
}

/// The file of a text with its role and span, by their index.
fn file_at<'a>(texts: &'a [String], parts: &[(Role, Option<Span>)], index: usize) -> File<'a> {
    match (texts.get(index), parts.get(index)) {
        (Some(text), Some((role, span))) => File {
            role: *role,
            name: "made",
            said: Said {
                span: *span,
                format: None,
            },
            bytes: text.as_bytes(),
        },
        _ => file(Role::Copper, "none", b""),
    }
}

/// Whether a rule is no more than the greatest one that is met.
fn allows(met: Met, rule: i64) -> bool {
    match met {
        Met::Any => true,
        Met::UpTo(most) => rule <= most,
        Met::None => false,
    }
}

/// The rule that is tried: the greatest that is met, the least rule where that is more, and 1 m where any is met.
fn tried(met: Met, least: i64) -> i64 {
    match met {
        Met::Any => 1_000_000_000_000,
        Met::UpTo(most) => most.max(least),
        Met::None => least,
    }
}

/// Whether the check of the files passes under these rules if they are met, and fails with 1 pm more of ring or gap.
fn agrees(alloc: Global, files: &[File], meets: Meets) -> bool {
    let (ring, gap) = (tried(meets.ring, 0), tried(meets.gap, 1));
    let (more_ring, more_gap) = (ring.saturating_add(1), gap.saturating_add(1));
    for (ring, gap) in [(ring, gap), (more_ring, gap), (ring, more_gap)] {
        let allowed = allows(meets.ring, ring) && allows(meets.gap, gap);
        if passes(alloc, files, ring, gap) != Some(allowed) {
            return false;
        }
    }
    true
}

/// Whether the greatest ring and gap are both lengths, and both allowed as rules.
fn is_told(meets: Meets) -> bool {
    match (meets.ring, meets.gap) {
        (Met::UpTo(ring), Met::UpTo(gap)) => ring >= 0 && gap >= 1,
        _ => false,
    }
}

/// The rules that some files meet, and whether their check agrees.
fn judged_files(alloc: Global, files: &[File]) -> Result<(Meets, bool), Failure> {
    let measure = measure_bytes(alloc, Profile::Strict, files)
        .ok()
        .ok_or("no measure")?;
    Ok((measure.meets, agrees(alloc, files, measure.meets)))
}

/// The rules that a package meets, and whether its check agrees.
fn judged(alloc: Global, counter: u32) -> Result<(Meets, bool), Failure> {
    let mut draws = Draws {
        state: u64::from(counter),
    };
    let layers = draws.below(3).saturating_add(1);
    let texts = texts(alloc, &mut draws, layers)?;
    let parts = parts(alloc, &mut draws, layers, texts.len())?;
    let files = [
        file_at(&texts, &parts, 0),
        file_at(&texts, &parts, 1),
        file_at(&texts, &parts, 2),
        file_at(&texts, &parts, 3),
        file_at(&texts, &parts, 4),
        file_at(&texts, &parts, 5),
    ];
    judged_files(alloc, &files[..texts.len().min(6)])
}

#[test]
fn checks_agree_with_measures(rt: HostRuntime) -> Result<(), Failure> {
    let mut told = 0_usize;
    for counter in 0..PACKAGES {
        let (meets, agreed) = judged(rt.alloc(), counter)?;
        assert!(rt; agreed, "package {counter}");
        told = told.saturating_add(usize::from(is_told(meets)));
    }
    // Nearly all of the packages meet a ring and a gap that are lengths.
    assert!(rt; told > 100, "{told} packages");
    Ok(())
}
