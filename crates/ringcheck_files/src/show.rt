//! The tables of a layer and of a drill file, from their bytes.

ghost use Rattle.std.specs.Prelude.{◌≡◌, [], ℕ, List, IfOk, Ok};
ghost use Rattle.grid_units.specs.Results.{Answers};
ghost use Rattle.grid_units.specs.declared.profile.Profile.TheVariants.{Strict};
ghost use Rattle.drill_text.specs.Outcome.{file_of};
ghost use Rattle.drill_text.specs.declared.kept.Keep.TheVariants as drill_keep;
ghost use Rattle.drill_text.specs.declared.platings.PlatingKind.TheVariants as plating;
ghost use Rattle.layer_image.specs.Kept.{ReadsKeptIn};
ghost use Rattle.layer_features.specs.declared.keep.Keep.TheVariants as layer_keep;
ghost use Rattle.ringcheck_files.specs.Tables.{HasFeatures, ReadsDrill, ShowsDrill, ShowsLayer, drill_header, drill_table, layer_header, layer_table};

use crate::fields::{with_feature, with_hole, with_row};
use drill_text::{Drill, DrillReader, readings_in_profiles};
use grid_units::{Fail, Hole, Profile};
use layer_image::{Feature, Keep, Layer, LayerReader, strict_layers, view_in};
use manifest::table::Table;
use std::alloc::{AllocError, Global};

/// How many bytes of a layer are read at a time, so that no more of its commands are held.
const PIECE: usize = 65_536;

/// The header of a table of flashes and contours.
fn layer_header(alloc: Global) -> Result<Table, AllocError>
    ensures { IfOk result (λ table. table ≡ layer_header) }
{
    with_row(
        Table::new(alloc)?,
        &[
            b"flash".as_slice(),
            b"what".as_slice(),
            b"x".as_slice(),
            b"y".as_slice(),
            b"width".as_slice(),
            b"height".as_slice(),
        ],
    )
}

/// The table of flashes and contours, numbered from 1.
fn layer_table(alloc: Global, features: &[Feature]) -> Result<Vec<u8>, AllocError>
    ensures { IfOk result (λ text. text.items ≡ layer_table features.now) }
{
    let mut table = layer_header(alloc)?;
    let mut number: u64 = 1;
    for feature in features {
        table = with_feature(table, number, feature)?;
        number += 1;
    }
    table.into_bytes()
}

/// The header of a table of holes.
fn drill_header(alloc: Global) -> Result<Table, AllocError>
    ensures { IfOk result (λ table. table ≡ drill_header) }
{
    with_row(
        Table::new(alloc)?,
        &[
            b"hole".as_slice(),
            b"x1".as_slice(),
            b"y1".as_slice(),
            b"x2".as_slice(),
            b"y2".as_slice(),
            b"diameter".as_slice(),
        ],
    )
}

/// The table of holes, numbered from 1.
fn drill_table(alloc: Global, holes: &[Hole]) -> Result<Vec<u8>, AllocError>
    ensures { IfOk result (λ text. text.items ≡ drill_table holes.now) }
{
    let mut table = drill_header(alloc)?;
    let mut number: u64 = 1;
    for hole in holes {
        table = with_hole(table, number, hole)?;
        number += 1;
    }
    table.into_bytes()
}

/// The layer that the bytes are in a profile, of which flashes and contours are kept.
fn read_layer(alloc: Global, profile: Profile, bytes: &[u8]) -> Result<Layer, Fail>
    ensures { Answers (λ layer. layer) (ReadsKeptIn profile layer_keep.Rows [] bytes.now) result }
{
    layer_image::readings_in_profiles();
    let mut reader = LayerReader::in_profile(alloc, Keep::Rows, profile);
    for piece in bytes.chunks(PIECE) {
        reader.feed(piece)?;
    }
    reader.finish()
}

/// The flashes and contours of a layer of a profile, as the profile has them.
fn features_in(alloc: Global, profile: Profile, layer: Layer) -> Result<Vec<Feature>, AllocError>
    ensures { (bytes : List ℕ) → ReadsKeptIn profile layer_keep.Rows [] bytes (Ok layer) → IfOk result (λ features. HasFeatures profile bytes features.items) }
{
    strict_layers();
    let (features, _drawn) = layer.into_rows();
    view_in(alloc, profile, features)
}

/// The drill file that the bytes are in a profile, of which no command is kept.
fn read_drill(alloc: Global, profile: Profile, bytes: &[u8]) -> Result<Drill, Fail>
    ensures { Answers (λ drill. drill) (ReadsDrill profile (file_of plating.Stated drill_keep.Holes) bytes.now) result }
{
    readings_in_profiles();
    let mut reader = DrillReader::in_profile(alloc, drill_text::Keep::Holes, profile);
    reader.feed(bytes)?;
    reader.finish()
}

/// The table of a layer that is read in the strict profile, as [`show_layer_in`] has it.
///
/// # Errors
///
/// The first fault of the text; `Memory` where an allocation failed.
pub fn show_layer(alloc: Global, bytes: &[u8]) -> Result<Vec<u8>, Fail>
    ensures exact { Answers (λ text. text.items) (ShowsLayer Strict bytes.now) result }
{
    show_layer_in(alloc, Profile::Strict, bytes)
}

/// The table of the holes of a drill file that is read in the strict profile, as [`show_drill_in`] has it.
///
/// # Errors
///
/// The first fault of the text; `Memory` where an allocation failed.
pub fn show_drill(alloc: Global, bytes: &[u8]) -> Result<Vec<u8>, Fail>
    ensures exact { Answers (λ text. text.items) (ShowsDrill Strict bytes.now) result }
{
    show_drill_in(alloc, Profile::Strict, bytes)
}

/// The table of a layer that is read in a profile: a row for each flash, numbered from 1, with what it leaves, its point, and the
/// width and height of a pad, in millimetres with nine decimals. In the wide profile contours have rows too, where their region ends.
///
/// # Errors
///
/// The first fault of the text; `Memory` where an allocation failed.
pub fn show_layer_in(alloc: Global, profile: Profile, bytes: &[u8]) -> Result<Vec<u8>, Fail>
    ensures exact { Answers (λ text. text.items) (ShowsLayer profile bytes.now) result }
{
    let layer = read_layer(alloc, profile, bytes)?;
    let features = features_in(alloc, profile, layer)?;
    match layer_table(alloc, &features) {
        Ok(text) => Ok(text),
        Err(_) => Err(Fail::Memory),
    }
}

/// The table of the holes of a drill file that is read in a profile: a row for each, numbered from 1, with its two ends and its
/// diameter, in millimetres with nine decimals.
///
/// # Errors
///
/// The first fault of the text; `Memory` where an allocation failed.
pub fn show_drill_in(alloc: Global, profile: Profile, bytes: &[u8]) -> Result<Vec<u8>, Fail>
    ensures exact { Answers (λ text. text.items) (ShowsDrill profile bytes.now) result }
{
    let drill = read_drill(alloc, profile, bytes)?;
    match drill_table(alloc, drill.holes()) {
        Ok(text) => Ok(text),
        Err(_) => Err(Fail::Memory),
    }
}
