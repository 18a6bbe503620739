//! Tests of the crates of numbers and shapes: numbers, printed lengths and lines, rounded polygons, macros with their values, pieces and
//! shapes, and holes at any angle.
#![tactic(auto)]

#[cfg(test)]
mod grid_units_calls;
#[cfg(test)]
mod macro_pieces_calls;
#[cfg(test)]
mod macro_shapes_calls;
#[cfg(test)]
mod macro_values_calls;
#[cfg(test)]
mod printing_calls;
#[cfg(test)]
mod rounded_calls;
#[cfg(test)]
mod wide_pads_calls;
