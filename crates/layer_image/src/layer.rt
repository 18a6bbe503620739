//! Layers: what a reader keeps of a text of legal commands.

ghost use Rattle.std.specs.Prelude.{◌≡◌, ◌++◌, IfOk, map};
ghost use Rattle.std.specs.Option.{option_copied};
ghost use Rattle.grid_units.specs.Results.{Answers};
ghost use Rattle.layer_image.specs.Kept.{image_in, plain};
ghost use Rattle.layer_image.specs.Layers.{ReadsLayer};

use crate::reader::LayerReader;
use gerber_text::{Command, Placed};
use grid_units::{Fail, Text};
use layer_features::{Feature, FeatureCounts};
use layer_state::Flash;
use pad_shapes::{Drawn, Pad, WidePad};
use std::alloc::{AllocError, Global};
use std::marker::Model;

/// What a reader kept of a layer: a list that was not asked for is empty, and pads are those that the reader has not dropped. Contracts see its lists
/// and the file function as lists.
#[derive(Drop)]
pub struct Layer {
    pub(crate) commands: Vec<Placed<Command>>,
    pub(crate) flashes: Vec<Flash>,
    pub(crate) pads: Vec<Pad>,
    pub(crate) wide_pads: Vec<WidePad>,
    pub(crate) features: Vec<Feature>,
    pub(crate) drawn: Vec<Drawn>,
    pub(crate) counts: FeatureCounts,
    pub(crate) file_function: Option<Text>,
}

impl Model for Layer {
    ghost use Rattle.layer_image.specs.Kept.{KeptLayer};

    ghost Value = { KeptLayer };

    ghost view = { λ l. record { commands = l.commands.items; flashes = l.flashes.items; pads = l.pads.items; wide_pads = l.wide_pads.items; features = l.features.items; drawn = l.drawn.items; counts = l.counts; file_function = l.file_function } };
}

impl Layer {
    /// The commands of the text, each with the number of its item from 1 and the offset of that item's first byte.
    pub fn commands(&self) -> &[Placed<Command>]
        ensures { result.now ≡ self.now.commands }
    {
        &self.commands
    }

    /// The flashes in order, one for each copy in a step and repeat block, as the strict profile has them.
    pub fn flashes(&self) -> &[Flash]
        ensures { result.now ≡ self.now.flashes }
    {
        &self.flashes
    }

    /// The flashes that are pads as the strict profile has them, in order.
    pub fn pads(&self) -> &[Pad]
        ensures { result.now ≡ self.now.pads }
    {
        &self.pads
    }

    /// The pads of the wide profile, in the order of the text: flashes and contours.
    pub fn wide_pads(&self) -> &[WidePad]
        ensures { result.now ≡ self.now.wide_pads }
    {
        &self.wide_pads
    }

    /// The flashes and contours as the wide profile has them, in the order of the text, one for each copy in a step and repeat block.
    /// [`crate::view_in`] gives what a profile says of them.
    pub fn features(&self) -> &[Feature]
        ensures { result.now ≡ self.now.features }
    {
        &self.features
    }

    /// How many flashes and contours there are of each kind in the profile of the reader, whatever is kept of them; where commands are kept, in the
    /// strict one.
    pub fn counts(&self) -> FeatureCounts
        ensures { result ≡ self.now.counts }
    {
        self.counts
    }

    /// What follows `.FileFunction,` in the last file attribute or comment that names it, such as `Copper,L1,Top`.
    pub fn file_function(&self) -> Option<&[u8]>
        ensures { option_copied result ≡ self.now.file_function }
    {
        Some(self.file_function.as_ref()?.bytes())
    }

    /// The first 100,001 parts of what is drawn that clear polarity does not take away, in order: lines and arcs, flashes of macros that have a
    /// shape, and the contours of regions. Of a step and repeat block the first copy alone is drawn.
    pub fn drawn(&self) -> &[Drawn]
        ensures { result.now ≡ self.now.drawn }
    {
        &self.drawn
    }

    /// The flashes and contours, and what is drawn, moved out of the layer. This takes no memory.
    pub fn into_rows(self) -> (Vec<Feature>, Vec<Drawn>)
        ensures features { result.0.items ≡ self.features }
        ensures drawn { result.1.items ≡ self.drawn }
    {
        (self.features, self.drawn)
    }

    /// All pads that are held, moved out of the layer.
    ///
    /// # Errors
    ///
    /// An `AllocError` where there is no memory for the list.
    pub fn into_pads(self, alloc: Global) -> Result<Vec<WidePad>, AllocError>
        ensures { IfOk result (λ all. all.items ≡ map plain self.pads ++ self.wide_pads) }
    {
        let Layer {
            pads,
            mut wide_pads,
            ..
        } = self;
        let mut all = plain_pads(alloc, pads)?;
        all.append(&mut wide_pads)?;
        Ok(all)
    }
}

/// Pads of standard apertures among all pads.
fn plain_pads(alloc: Global, pads: Vec<Pad>) -> Result<Vec<WidePad>, AllocError>
    ensures { IfOk result (λ all. all.items ≡ map plain pads.items) }
{
    pads.into_iter()
        .map(|pad| WidePad::Plain(pad))
        .collect(alloc)
}

/// Reads the text of a layer.
///
/// # Errors
///
/// The first fault of the text: of its items or of the rules, whichever comes first; `Memory` where an allocation failed.
pub fn read_layer(alloc: Global, bytes: &[u8]) -> Result<Layer, Fail>
    ensures { Answers (λ layer. image_in layer) (λ answer. ReadsLayer bytes.now answer) result }
{
    let mut reader = LayerReader::new(alloc);
    reader.feed(bytes)?;
    reader.finish()
}
