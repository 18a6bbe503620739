//! The rings of copper round plated holes.

ghost use Rattle.std.specs.Prelude.{◌≡◌, ◌++◌, Bool, length, map, IfOk, OnOk};
ghost use Rattle.std.specs.List.{filter, enumerate_from};
ghost use Rattle.ring_rules.specs.Findings.{finding_of, layer_findings, ring_findings};
ghost use Rattle.ring_rules.specs.declared.finding.Drilled.{Drilled};

use crate::cell_size::sample_index;
use crate::finding::{Drilled, Finding, is_refused_slot};
use crate::layer_search::LayerSearch;
use crate::ring_index::RingIndex;
use grid_units::{Profile, Rules};
use pad_shapes::PadShape;
use std::alloc::{AllocError, Global};

/// The finding at a hole that lacks its ring: `Oblique` for a slot that the profile refuses, else `Ring`.
fn finding_of(profile: Profile, layer: usize, hole: usize, drilled: &Drilled) -> Finding
    ensures { result ≡ finding_of profile layer (hole, drilled.now) }
{
    if is_refused_slot(profile, &drilled.hole) {
        Finding::Oblique { layer, hole }
    } else {
        Finding::Ring { layer, hole }
    }
}

/// Appends the findings of one layer in a profile, given of each hole whether it lacks its ring there.
///
/// # Errors
///
/// Where there is no memory.
pub fn layer_findings(
    findings: &mut Vec<Finding>,
    profile: Profile,
    layer: usize,
    holes: &[Drilled],
    lacking: &[bool],
) -> Result<(), AllocError>
    requires { length lacking.now ≡ length holes.now }
    ensures { OnOk result ((test : Drilled → Bool) → lacking.now ≡ map test holes.now → findings.new.items ≡ findings.old.items ++ map (finding_of profile layer) (filter (λ hole. test hole.1) (enumerate_from 0 holes.now))) }
{
    for (hole, drilled) in holes.iter().enumerate() {
        if lacking[hole] {
            findings.push(finding_of(profile, layer, hole, drilled))?;
        }
    }
    Ok(())
}

/// The mean width and height of the zones of a sample of the pads, in pm. Any answer is right: an index of holes is only quicker by it.
pub fn mean_zone_size<S: PadShape>(layers: &[&[S]]) -> (u64, u64) {
    let mut width: u64 = 0;
    let mut height: u64 = 0;
    let mut count: u64 = 0;
    for pads in layers {
        for draw in 0..(pads.len() as u64).min(256) {
            let pad = pads.get(sample_index(draw, pads.len()));
            if let Some(zone) = pad.and_then(|pad| pad.zone(0)) {
                width = width.saturating_add(zone.left.abs_diff(zone.right));
                height = height.saturating_add(zone.bottom.abs_diff(zone.top));
                count = count.saturating_add(1);
            }
        }
    }
    (width / count.max(1), height / count.max(1))
}

/// Lists, layer by layer and hole by hole, each plated hole that goes through the layer and has no ring there. No
/// single pad of the layer covers it with the ring round it; or it is an oblique slot, and the profile of the rules is strict.
///
/// # Errors
///
/// Where there is no memory.
pub fn ring_findings<S: PadShape>(
    alloc: Global,
    layers: &[&[S]],
    holes: &[Drilled],
    rules: Rules,
) -> Result<Vec<Finding>, AllocError>
    ensures { IfOk result (λ findings. findings.items ≡ ring_findings S.covers rules.profile rules.ring (map (λ pads. pads.now) layers.now) holes.now) }
{
    let (width, height) = mean_zone_size(layers);
    let index = RingIndex::new(alloc, holes, rules, width, height)?;
    let mut findings = Vec::new(alloc);
    for (layer, pads) in layers.iter().enumerate() {
        let mut search = LayerSearch::new(alloc, &index, holes, layer)?;
        search.try_pads(&index, pads);
        search.push_findings(alloc, &index, holes, &mut findings)?;
    }
    Ok(findings)
}
