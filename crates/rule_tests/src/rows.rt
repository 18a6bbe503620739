//! Pads and holes as rows of figures, in pm.

use grid_units::{Hole, Point};
use pad_shapes::{Disc, Obround, Pad, Rect};
use ring_rules::Drilled;
use std::test::Fail;

#[derive(Clone, Copy)]
pub(crate) enum Shape {
    Disc,
    Rect,
    Obround,
}

/// A pad: its shape, its centre and its half sides, in pm. The radius of a disc is the first of these.
pub(crate) type PadRow = (Shape, i64, i64, i64, i64);

/// A hole: the point that it goes from, the point that it goes to, and its radius, in pm.
pub(crate) type HoleRow = ((i64, i64), (i64, i64), i64);

pub(crate) fn point(x: i64, y: i64) -> Result<Point, Fail> {
    Ok(Point::new(x, y).ok_or("point")?)
}

pub(crate) fn pad(row: PadRow) -> Option<Pad> {
    let (shape, x, y, half_x, half_y) = row;
    let centre = Point::new(x, y)?;
    match shape {
        Shape::Disc => Some(Pad::Disc(Disc::new(centre, half_x)?)),
        Shape::Rect => Some(Pad::Rect(Rect::new(centre, half_x, half_y)?)),
        Shape::Obround => Some(Pad::Obround(Obround::new(centre, half_x, half_y)?)),
    }
}

pub(crate) fn disc(x: i64, y: i64, radius: i64) -> Result<Pad, Fail> {
    Ok(pad((Shape::Disc, x, y, radius, radius)).ok_or("disc")?)
}

pub(crate) fn rect(x: i64, y: i64, half_x: i64, half_y: i64) -> Result<Pad, Fail> {
    Ok(pad((Shape::Rect, x, y, half_x, half_y)).ok_or("rect")?)
}

/// A hole between two points.
pub(crate) fn slot(from: (i64, i64), to: (i64, i64), radius: i64) -> Option<Hole> {
    Hole::new(Point::new(from.0, from.1)?, Point::new(to.0, to.1)?, radius)
}

/// A plated hole between two points.
pub(crate) fn drilled(from: (i64, i64), to: (i64, i64), radius: i64) -> Result<Drilled, Fail> {
    Ok(Drilled {
        hole: slot(from, to, radius).ok_or("hole")?,
        plated: true,
        span: None,
    })
}

/// A plated round hole.
pub(crate) fn round(x: i64, y: i64, radius: i64) -> Result<Drilled, Fail> {
    drilled((x, y), (x, y), radius)
}

/// Adds a plated round hole to a list.
pub(crate) fn add_round(list: &mut Vec<Drilled>, x: i64, y: i64, radius: i64) -> Result<(), Fail> {
    let hole = slot((x, y), (x, y), radius).ok_or("hole")?;
    list.push(Drilled {
        hole,
        plated: true,
        span: None,
    })?;
    Ok(())
}

/// Adds pads to a list.
pub(crate) fn add_pads(list: &mut Vec<Pad>, rows: &[PadRow]) -> Option<()> {
    for row in rows {
        list.push(pad(*row)?).ok()?;
    }
    Some(())
}

/// Adds holes to a list, all of them plated, or none.
pub(crate) fn add_holes(list: &mut Vec<Drilled>, rows: &[HoleRow], plated: bool) -> Option<()> {
    for (from, to, radius) in rows {
        let hole = slot(*from, *to, *radius)?;
        let drilled = Drilled {
            hole,
            plated,
            span: None,
        };
        list.push(drilled).ok()?;
    }
    Some(())
}

/// A round hole of 0.4 mm at the origin.
pub(crate) const HOLE: HoleRow = ((0, 0), (0, 0), 200_000_000);
