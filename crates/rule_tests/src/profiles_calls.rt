//! Slots at an angle to both axes in the two profiles, and a layer whose pads come in parts of several types.

use crate::rows::{HoleRow, disc, drilled, point, round};
use grid_units::{Profile, Rules};
use pad_shapes::{Pad, Rounded};
use ring_rules::{Finding, LayerSearch, RingIndex, ring_findings};
use std::alloc::Global;
use std::test::Fail;

/// Half a millimetre in pm.
const HALF: i64 = 500_000_000;

/// A ring of 0.125 mm and a gap of 0.25 mm in a profile.
fn rules_in(profile: Profile) -> Result<Rules, Fail> {
    let rules = Rules::new(125_000_000, 250_000_000).ok().ok_or("rules")?;
    Ok(rules.in_profile(profile))
}

/// A line from -0.5,-0.5 mm to 0.5,0.5 mm with round ends of a radius of 0.5 mm.
fn oblique_oval(alloc: Global) -> Result<Rounded, Fail> {
    let mut corners = Vec::new(alloc);
    corners.push(point(HALF, HALF)?)?;
    Ok(Rounded::new(point(-HALF, -HALF)?, corners, HALF).ok_or("rounded")?)
}

/// A slot of 0.75 mm from end to end of the oval: its radius and the ring are just the oval's radius.
const ALONG_OVAL: HoleRow = ((-HALF, -HALF), (HALF, HALF), 375_000_000);

/// The same slot from its other end.
const BACK_ALONG_OVAL: HoleRow = ((HALF, HALF), (-HALF, -HALF), 375_000_000);

/// A slot of 0.750002 mm there.
const WIDER: HoleRow = ((-HALF, -HALF), (HALF, HALF), 375_001_000);

/// A slot of 0.75 mm that ends at 0.6,0.6 mm.
const LONGER: HoleRow = ((-HALF, -HALF), (600_000_000, 600_000_000), 375_000_000);

/// A slot of 0.75 mm that begins at -0.6,-0.6 mm.
const EARLIER: HoleRow = ((-600_000_000, -600_000_000), (HALF, HALF), 375_000_000);

/// A round hole of 0.75 mm at an end of the oval.
const AT_END: HoleRow = ((HALF, HALF), (HALF, HALF), 375_000_000);

/// A slot of 0.1 mm across the oval, whose ends lie outside it.
const ACROSS: HoleRow = ((-HALF, HALF), (HALF, -HALF), 50_000_000);

const RING: Finding = Finding::Ring { layer: 0, hole: 0 };

const OBLIQUE: Finding = Finding::Oblique { layer: 0, hole: 0 };

/// Profiles, holes, and what is found of them on a layer with the oval alone. The wide profile asks of a slot at any angle that the oval
/// covers both of its ends; the strict profile refuses it.
const IN_OVAL: [(Profile, HoleRow, Option<Finding>); 11] = [
    (Profile::Wide, ALONG_OVAL, None),
    (Profile::Wide, BACK_ALONG_OVAL, None),
    (Profile::Wide, WIDER, Some(RING)),
    (Profile::Wide, LONGER, Some(RING)),
    (Profile::Wide, EARLIER, Some(RING)),
    (Profile::Wide, ACROSS, Some(RING)),
    (Profile::Wide, AT_END, None),
    (Profile::Strict, ALONG_OVAL, Some(OBLIQUE)),
    (Profile::Strict, LONGER, Some(OBLIQUE)),
    (Profile::Strict, ACROSS, Some(OBLIQUE)),
    (Profile::Strict, AT_END, None),
];

/// What is found of a plated hole on a layer with these pads.
fn found_among(
    alloc: Global,
    pads: &[Rounded],
    profile: Profile,
    row: HoleRow,
) -> Result<Option<Finding>, Fail> {
    let holes = [drilled(row.0, row.1, row.2)?];
    let found = ring_findings(alloc, &[pads], &holes, rules_in(profile)?)?;
    Ok(found.first().copied())
}

#[test]
fn slots_in_an_oblique_oval(rt: HostRuntime) -> Result<(), Fail> {
    let pads = [oblique_oval(rt.alloc())?];
    for &(profile, row, wanted) in &IN_OVAL {
        assert!(rt; found_among(rt.alloc(), &pads, profile, row)? == wanted);
    }
    Ok(())
}

#[test]
fn an_oblique_slot_without_copper(rt: HostRuntime) -> Result<(), Fail> {
    let wide = found_among(rt.alloc(), &[], Profile::Wide, ALONG_OVAL)?;
    let strict = found_among(rt.alloc(), &[], Profile::Strict, ALONG_OVAL)?;
    assert!(rt; wide == Some(RING) && strict == Some(OBLIQUE));
    Ok(())
}

/// The findings of a round hole at 5 mm and of a slot along the oval, on a layer whose pads come in two parts: these, and then the oval.
fn found_by_parts(alloc: Global, first: &[Pad], profile: Profile) -> Result<Vec<Finding>, Fail> {
    let (from, to, radius) = ALONG_OVAL;
    let holes = [
        round(5_000_000_000, 0, 200_000_000)?,
        drilled(from, to, radius)?,
    ];
    let index = RingIndex::new(alloc, &holes, rules_in(profile)?, 0, 0)?;
    let mut search = LayerSearch::new(alloc, &index, &holes, 0)?;
    search.try_pads(&index, first);
    search.try_pads(&index, &[oblique_oval(alloc)?]);
    let mut found = Vec::new(alloc);
    search.push_findings(alloc, &index, &holes, &mut found)?;
    Ok(found)
}

#[test]
fn parts_of_several_types_are_one_layer(rt: HostRuntime) -> Result<(), Fail> {
    let disc = [disc(5_000_000_000, 0, 325_000_000)?];
    assert!(rt; found_by_parts(rt.alloc(), &disc, Profile::Wide)?.is_empty());
    let without = found_by_parts(rt.alloc(), &[], Profile::Wide)?;
    assert!(rt; without.as_slice() == [RING].as_slice());
    let oblique = Finding::Oblique { layer: 0, hole: 1 };
    let strict = found_by_parts(rt.alloc(), &disc, Profile::Strict)?;
    assert!(rt; strict.as_slice() == [oblique].as_slice());
    Ok(())
}
