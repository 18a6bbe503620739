//! The board of a package: what all of its files say together.

ghost use Rattle.std.specs.Prelude.{◌≡◌, [], IfOk, get_or, map, min};
ghost use Rattle.board.specs.Boards.{CountsAddUp, board_findings, hole_count};

use crate::{FileSum, Shown};
use grid_units::Rules;
use pad_shapes::{Drawn, FeatureRow, WidePad};
use ring_rules::{Drilled, Finding, gap_findings, ring_findings};
use std::alloc::{AllocError, Global};
use std::marker::Model;

/// The board of a package: the counts of each file, the pads of each copper file, and the holes of all drill files; also the rows
/// of each file, the pads that its profile does not count, and what it draws, where they are kept.
#[derive(Drop)]
pub struct Board {
    files: Vec<FileSum>,
    layers: Vec<Vec<WidePad>>,
    layer_indexes: Vec<usize>,
    holes: Vec<Drilled>,
    shown: Vec<Shown>,
}

impl Model for Board {
    ghost use Rattle.std.specs.Prelude.{map};
    ghost use Rattle.board.specs.Boards.{BoardView, CountsAddUp};

    ghost Value = { BoardView };

    ghost view = { λ b. record { files = b.files.items; layers = map (λ l. l.items) b.layers.items; layer_indexes = b.layer_indexes.items; holes = b.holes.items; rows = map (λ one. one.rows.items) b.shown.items; macros = map (λ one. one.macros.items) b.shown.items; contours = map (λ one. one.contours.items) b.shown.items; drawn = map (λ one. one.drawn.items) b.shown.items } };

    ghost invariant = { λ b. CountsAddUp b.files.items b.holes.items };
}

impl Board {
    /// The board of files with these counts: `layers` has the pads of each copper file, `layer_indexes` its index among all files, `holes`
    /// the holes of all drill files in order, and `shown` what is kept of each file to be shown.
    pub fn new(
        files: Vec<FileSum>,
        layers: Vec<Vec<WidePad>>,
        layer_indexes: Vec<usize>,
        holes: Vec<Drilled>,
        shown: Vec<Shown>,
    ) -> Board
        requires { CountsAddUp files.items holes.items }
        ensures { result ≡ record {
          files = files.items;
          layers = map (λ l. l.items) layers.items;
          layer_indexes = layer_indexes.items;
          holes = holes.items;
          rows = map (λ one. one.rows.items) shown.items;
          macros = map (λ one. one.macros.items) shown.items;
          contours = map (λ one. one.contours.items) shown.items;
          drawn = map (λ one. one.drawn.items) shown.items;
        } }
    {
        Board {
            files,
            layers,
            layer_indexes,
            holes,
            shown,
        }
    }

    /// The counts of each file, in the order of the files. Together they count just the holes of the board.
    pub fn files(&self) -> &[FileSum]
        ensures sums { result.now ≡ self.now.files }
        ensures counted { CountsAddUp self.now.files self.now.holes }
    {
        &self.files
    }

    /// The pads of each layer, in the order of the copper files.
    ///
    /// # Errors
    ///
    /// An `AllocError` where there is no memory for the list.
    pub fn layers(&self, alloc: Global) -> Result<Vec<&[WidePad]>, AllocError>
        ensures { IfOk result (λ layers. map (λ pads. pads.now) layers.items ≡ self.now.layers) }
    {
        pads_of_each(alloc, &self.layers)
    }

    /// The pads of a layer, by its place among the copper files: none where there is no such layer.
    pub fn pads_of(&self, layer: usize) -> &[WidePad]
        ensures { result.now ≡ get_or self.now.layers layer [] }
    {
        match self.layers.get(layer) {
            Some(pads) => pads,
            None => &[],
        }
    }

    /// For each layer the index of its copper file among all files, from 0.
    pub fn layer_indexes(&self) -> &[usize]
        ensures { result.now ≡ self.now.layer_indexes }
    {
        &self.layer_indexes
    }

    /// The holes of all drill files: those of the first drill file in their order, then those of the next.
    pub fn holes(&self) -> &[Drilled]
        ensures { result.now ≡ self.now.holes }
    {
        &self.holes
    }

    /// The rows of a file's flashes and contours, by its index among all files: none where they are not kept, or where there is no such file.
    pub fn rows_of(&self, file: usize) -> &[FeatureRow]
        ensures { result.now ≡ get_or self.now.rows file [] }
    {
        match self.shown.get(file) {
            Some(shown) => &shown.rows,
            None => &[],
        }
    }

    /// The shapes of macros that a file flashes and that its profile does not count, by its index among all files: none where they are not
    /// kept, or where there is no such file.
    pub fn macros_of(&self, file: usize) -> &[WidePad]
        ensures { result.now ≡ get_or self.now.macros file [] }
    {
        match self.shown.get(file) {
            Some(shown) => &shown.macros,
            None => &[],
        }
    }

    /// The contours of a file that its profile does not count, by its index among all files: none where they are not kept, or where there is
    /// no such file.
    pub fn contours_of(&self, file: usize) -> &[WidePad]
        ensures { result.now ≡ get_or self.now.contours file [] }
    {
        match self.shown.get(file) {
            Some(shown) => &shown.contours,
            None => &[],
        }
    }

    /// The first 100,001 parts of what a file draws, by its index among all files: nothing where it is not kept, or where there is no such file.
    pub fn drawn_of(&self, file: usize) -> &[Drawn]
        ensures { result.now ≡ get_or self.now.drawn file [] }
    {
        match self.shown.get(file) {
            Some(shown) => &shown.drawn,
            None => &[],
        }
    }

    /// The findings on this board: the rings that are lacking, layer by layer, then the gaps.
    ///
    /// # Errors
    ///
    /// An `AllocError` where there is no memory.
    pub fn findings(&self, alloc: Global, rules: Rules) -> Result<Vec<Finding>, AllocError>
        ensures { IfOk result (λ found. found.items ≡ board_findings rules self.now) }
    {
        let layers = self.layers(alloc)?;
        let mut findings = ring_findings(alloc, &layers, &self.holes, rules)?;
        let gaps = gap_findings(alloc, &self.holes, rules)?;
        findings.extend_from_slice(&gaps)?;
        Ok(findings)
    }
}

fn pads_of_each(alloc: Global, layers: &[Vec<WidePad>]) -> Result<Vec<&[WidePad]>, AllocError>
    ensures { IfOk result (λ all. map (λ pads. pads.now) all.items ≡ map (λ layer. layer.items) layers.now) }
{
    let mut all = Vec::new(alloc);
    for layer in layers {
        all.push(layer.as_slice())?;
    }
    Ok(all)
}

/// How many holes a file has, at most `all`.
pub fn hole_count(file: &FileSum, all: usize) -> usize
    ensures { result ≡ min (hole_count file.now) all }
{
    match file {
        FileSum::Layer { .. } => 0,
        FileSum::Drill { round, slots, .. } | FileSum::Mixed { round, slots, .. } => {
            round.saturating_add(*slots).min(all)
        }
    }
}
