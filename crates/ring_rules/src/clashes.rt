//! The pairs of holes that are not clear.

ghost use Rattle.std.specs.Prelude.{◌≡◌, ℕ, ◌<◌, length, OnOk};
ghost use Rattle.std.specs.List.{All, Contains};
ghost use Rattle.ring_rules.specs.Inner.ClashingPairs.{in_order, AddsClashes, ListsClash};

use crate::cores::are_clear;
use crate::spot_list::SpotList;
use grid_units::Rules;
use std::alloc::AllocError;

/// Two places as a pair, the lesser one first.
fn in_order(a: usize, b: usize) -> (usize, usize)
    ensures { result ≡ in_order a b }
{
    (a.min(b), a.max(b))
}

/// Appends the places of two spots, where their holes are not clear.
fn add_pair(
    spots: &SpotList,
    rules: Rules,
    i: usize,
    j: usize,
    pairs: &mut Vec<(usize, usize)>,
) -> Result<(), AllocError>
    requires i { i < length spots.now }
    requires j { j < length spots.now }
    ensures adds { OnOk result (AddsClashes rules.gap spots.now pairs.old.items pairs.new.items) }
    ensures found { OnOk result (ListsClash rules.gap spots.now i j pairs.new.items) }
{
    let place = spots.place(i);
    let other = spots.place(j);
    if other != place && !are_clear(&spots.at(j).hole, &spots.at(i).hole, rules) {
        pairs.push(in_order(other, place))?;
    }
    Ok(())
}

/// Appends the places of a spot with each of some others, where their holes are not clear.
pub(crate) fn add_pairs(
    spots: &SpotList,
    rules: Rules,
    i: usize,
    others: &[usize],
    pairs: &mut Vec<(usize, usize)>,
) -> Result<(), AllocError>
    requires i { i < length spots.now }
    requires others { All (λ j. j < length spots.now) others.now }
    ensures adds { OnOk result (AddsClashes rules.gap spots.now pairs.old.items pairs.new.items) }
    ensures found { OnOk result ((j : ℕ) → Contains others.now j → ListsClash rules.gap spots.now i j pairs.new.items) }
{
    for other in others {
        add_pair(spots, rules, i, *other, pairs)?;
    }
    Ok(())
}
