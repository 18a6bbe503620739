//! Layers: what a text of legal commands says in a profile, read in pieces.
#![tactic(auto)]

mod command_sink;
mod content;
mod laws;
mod layer;
mod met;
mod reader;
mod rows;

pub use laws::{
    clear_polarity, copied_flashes, equal_commands, flashed_pads, readings_in_profiles,
    strict_layers,
};
pub use layer::{Layer, read_layer};
pub use layer_features::{Feature, FeatureCounts, FeatureKind, Keep, into_pads};
pub use layer_state::{Flash, What};
pub use pad_shapes::{Drawn, FeatureRow, RowKind, Why};
pub use reader::LayerReader;
pub use rows::{Uncounted, counted_in, rows_of, view_in};
