//! The keys by which findings and waivers are looked up.

ghost use Rattle.std.specs.Prelude.{◌≡◌, IfOk, OnOk, ℕ, List, map, Some, None, if◌then◌else◌};
ghost use Rattle.std.specs.List.{position_from};
ghost use Rattle.std.specs.Option.{option_or};
ghost use Rattle.std.specs.Str.{bytes_eq};
ghost use Rattle.waivers.specs.Inner.{place_at};

use crate::findings::Fields;
use grid_units::Line;
use std::alloc::{AllocError, Global};
use std::collections::BTreeMap;

/// The key of a finding or of a waiver: its fields as CSV.
fn key_of<P, T: Line<P>>(alloc: Global, page: &P, one: &T) -> Result<Vec<u8>, AllocError>
    ensures { IfOk result (λ key. key.items ≡ T.text page.now one.now) }
{
    let fields = Fields { page, one };
    Ok(format!(in alloc; "{fields}")?.into_bytes())
}

/// The keys of some findings or waivers, in order.
pub(crate) fn keys_of<P, T: Line<P>>(
    alloc: Global,
    page: &P,
    all: &[T],
) -> Result<Vec<Vec<u8>>, AllocError>
    ensures { IfOk result (λ keys. map (λ key. key.items) keys.items ≡ map (T.text page.now) all.now) }
{
    let mut keys = Vec::new(alloc);
    for one in all {
        keys.push(key_of(alloc, page, one)?)?;
    }
    Ok(keys)
}

/// Enters a key with a place, unless the table has it.
fn add_first<'k>(
    table: &mut BTreeMap<&'k [u8], usize>,
    key: &'k [u8],
    place: usize,
) -> Result<(), AllocError>
    ensures { OnOk result ((other : List ℕ) → place_at table.new other ≡ option_or (place_at table.old other) (if bytes_eq key.now other then Some place else None)) }
{
    if table.contains_key(&key) {
        return Ok(());
    }
    table.insert(key, place)?;
    Ok(())
}

/// For each key the place of the first one equal to it.
pub(crate) fn first_places<'k>(
    alloc: Global,
    keys: &'k [Vec<u8>],
) -> Result<BTreeMap<&'k [u8], usize>, AllocError>
    ensures { IfOk result (λ table. (key : List ℕ) → place_at table key ≡ position_from (λ other. bytes_eq other.items key) 0 keys.now) }
{
    let mut table = BTreeMap::new(alloc);
    for (place, key) in keys.iter().enumerate() {
        add_first(&mut table, key.as_slice(), place)?;
    }
    Ok(table)
}

/// The place that a table holds for a key.
fn place_of<'k>(table: &BTreeMap<&'k [u8], usize>, key: &'k [u8]) -> Option<usize>
    ensures { result ≡ place_at table.now key.now }
{
    table.get(&key).copied()
}

/// For each key the place that a table holds for it.
pub(crate) fn places_of<'k>(
    alloc: Global,
    table: &BTreeMap<&'k [u8], usize>,
    keys: &'k [Vec<u8>],
) -> Result<Vec<Option<usize>>, AllocError>
    ensures { IfOk result (λ places. places.items ≡ map (λ key. place_at table.now key.items) keys.now) }
{
    let mut places = Vec::new(alloc);
    for key in keys {
        places.push(place_of(table, key.as_slice()))?;
    }
    Ok(places)
}
