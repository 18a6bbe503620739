//! What is found of rings, by the best pads of the holes.

ghost use Rattle.std.specs.Prelude.{◌≡◌, ◌<◌, [], length, map, get_or, IfOk};
ghost use Rattle.ring_rules.specs.Findings.{is_ring_finding, ring_findings};
ghost use Rattle.board.specs.BestPads.{AreBestPads, AreBestPadsByLayer};
ghost use Rattle.board.specs.Inner.Lacking.{is_short, falls_short};

use crate::best::BestPad;
use crate::deep::DepthShape;
use crate::met::needs_ring;
use crate::row::ring_of;
use grid_units::Rules;
use ring_rules::{Drilled, Finding, layer_findings};
use std::alloc::{AllocError, Global};

/// Whether a hole has no ring, or one below the rule.
fn is_short(ring: Option<i64>, rules: Rules) -> bool
    ensures { result ≡ is_short rules.ring ring }
{
    match ring {
        Some(ring) => ring < rules.ring(),
        None => true,
    }
}

/// Whether a hole needs a ring on a layer, and its best pad there gives it none or less than the rule.
fn falls_short(layer: usize, drilled: &Drilled, best: Option<BestPad>, rules: Rules) -> bool
    ensures { result ≡ falls_short rules.profile rules.ring layer drilled.now best }
{
    needs_ring(layer, drilled) && is_short(ring_of(rules.profile(), best, &drilled.hole), rules)
}

/// Whether each hole lacks its ring on a layer, by the best pads of the holes there.
fn lacking_by<S: DepthShape>(
    alloc: Global,
    layers: &[&[S]],
    layer: usize,
    bests: &[Option<BestPad>],
    holes: &[Drilled],
    rules: Rules,
) -> Result<Vec<bool>, AllocError>
    requires { AreBestPads S.covers (get_or (map (λ pads. pads.now) layers.now) layer []) holes.now bests.now }
    ensures { IfOk result (λ lacking. lacking.items ≡ map (is_ring_finding S.covers rules.profile rules.ring layer (get_or (map (λ pads. pads.now) layers.now) layer [])) holes.now) }
{
    let mut lacking = Vec::new(alloc);
    for (hole, drilled) in holes.iter().enumerate() {
        lacking.push(falls_short(layer, drilled, bests[hole], rules))?;
    }
    Ok(lacking)
}

/// The findings of [`ring_rules::ring_findings`], by the best pads of the holes on each layer: no pad is looked at again.
///
/// # Errors
///
/// Where there is no memory.
pub fn ring_findings_from_bests<S: DepthShape>(
    alloc: Global,
    layers: &[&[S]],
    holes: &[Drilled],
    bests: &[Vec<Option<BestPad>>],
    rules: Rules,
) -> Result<Vec<Finding>, AllocError>
    requires { AreBestPadsByLayer S.covers (map (λ pads. pads.now) layers.now) holes.now (map (λ layer_bests. layer_bests.items) bests.now) }
    ensures { IfOk result (λ findings. findings.items ≡ ring_findings S.covers rules.profile rules.ring (map (λ pads. pads.now) layers.now) holes.now) }
{
    let mut findings = Vec::new(alloc);
    for (layer, layer_bests) in bests.iter().enumerate() {
        let lacking = lacking_by(alloc, layers, layer, layer_bests, holes, rules)?;
        layer_findings(&mut findings, rules.profile(), layer, holes, &lacking)?;
    }
    Ok(findings)
}
