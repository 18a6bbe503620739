//! Holes in the cells of a grid, by chains. Each cell has a link to the last of its holes in the list, and each hole
//! one to the hole before it in its cell. Nothing is sorted or moved yet.

ghost use Rattle.std.specs.Prelude.{◌≡◌, ◌+◌, ◌*◌, ◌^◌, ◌<◌, ◌≤◌, ◌++◌, ◌∷◌, [], IfOk, OnOk, length, get_or, set};
ghost use Rattle.ring_rules.specs.Places.{IsChained};
ghost use Rattle.ring_rules.specs.Cells.{place_of, cell_of, cell_at};

use crate::cell_size::Axis;
use crate::cores::excess;
use crate::finding::Drilled;
use grid_units::{Hole, Point};
use std::alloc::{AllocError, Global};

/// The holes of a board in chains. A link is one more than a hole's place, or 0 at the end of a chain.
#[derive(Drop)]
pub(crate) struct Chains {
    pub x: Axis,
    pub y: Axis,
    pub head: Vec<u32>,
    pub next: Vec<u32>,
}

/// The link at a place of a list of links, 0 past its end.
pub(crate) fn link_at(links: &[u32], place: usize) -> usize
    ensures { result ≡ get_or links.now place 0 }
{
    match links.get(place) {
        Some(link) => *link as usize,
        None => 0,
    }
}

/// A number of holes in 32 bits: there is no memory for more holes than that.
pub(crate) fn narrow(count: usize) -> Result<u32, AllocError>
    ensures { IfOk result (λ narrow. narrow ≡ count) }
{
    match u32::try_from(count) {
        Ok(narrow) => Ok(narrow),
        Err(_) => Err(AllocError),
    }
}

/// The place of a coordinate, at most the last one.
pub(crate) fn place(axis: &Axis, v: i64) -> usize
    ensures value { result ≡ place_of axis.now v }
    ensures within { result ≤ axis.now.last }
{
    (excess(v, axis.low) >> axis.shift).min(axis.last as u64) as usize
}

/// The number of the cell of a point, counted row by row from 0.
pub(crate) fn cell_of(x: &Axis, y: &Axis, at: Point) -> usize
    requires { (y.now.last + 1) * (x.now.last + 1) ≤ 2 ^ 62 }
    ensures value { result ≡ cell_of x.now y.now at }
    ensures within { result < (y.now.last + 1) * (x.now.last + 1) }
{
    place(y, at.y()) * (x.last + 1) + place(x, at.x())
}

/// Puts the next hole at the end of the chain of its cell.
fn chain_next(
    x: &Axis,
    y: &Axis,
    hole: &Hole,
    head: &mut Vec<u32>,
    next: &mut Vec<u32>,
) -> Result<(), AllocError>
    requires few { (y.now.last + 1) * (x.now.last + 1) ≤ 2 ^ 62 }
    requires all { length head.now.items ≡ (y.now.last + 1) * (x.now.last + 1) }
    ensures head { OnOk result (head.new.items ≡ set head.old.items (cell_of x.now y.now hole.now.from) (length next.old.items + 1)) }
    ensures next { OnOk result (next.new.items ≡ next.old.items ++ get_or head.old.items (cell_of x.now y.now hole.now.from) 0 ∷ []) }
{
    let cell = cell_of(x, y, hole.from());
    let link = narrow(next.len() + 1)?;
    next.push(head[cell])?;
    head[cell] = link;
    Ok(())
}

/// The links of the cells of a grid, and those of the holes, each in the cell of its entry point.
fn links(
    alloc: Global,
    x: &Axis,
    y: &Axis,
    holes: &[Drilled],
) -> Result<(Vec<u32>, Vec<u32>), AllocError>
    requires { (y.now.last + 1) * (x.now.last + 1) ≤ 2 ^ 62 }
    ensures count { IfOk result (λ (head, next). length head.items ≡ (y.now.last + 1) * (x.now.last + 1)) }
    ensures chained { IfOk result (λ (head, next). IsChained (cell_at x.now y.now holes.now) (length holes.now) head.items next.items) }
{
    let mut head = vec![in alloc; 0; (y.last + 1) * (x.last + 1)]?;
    let mut next = Vec::with_capacity(alloc, holes.len())?;
    for drilled in holes {
        chain_next(x, y, &drilled.hole, &mut head, &mut next)?;
    }
    Ok((head, next))
}

/// The holes in the cells of a grid, each in the cell of its entry point.
pub(crate) fn chained(
    alloc: Global,
    x: Axis,
    y: Axis,
    holes: &[Drilled],
) -> Result<Chains, AllocError>
    requires { (y.last + 1) * (x.last + 1) ≤ 2 ^ 62 }
    ensures x { IfOk result (λ chains. chains.x ≡ x) }
    ensures y { IfOk result (λ chains. chains.y ≡ y) }
    ensures count { IfOk result (λ chains. length chains.head.items ≡ (y.last + 1) * (x.last + 1)) }
    ensures chained { IfOk result (λ chains. IsChained (cell_at x y holes.now) (length holes.now) chains.head.items chains.next.items) }
{
    let (head, next) = links(alloc, &x, &y, holes)?;
    Ok(Chains { x, y, head, next })
}
