//! Tests of the crates of pads, rings, gaps and depths, and of mistakes of the unit.
#![tactic(auto)]

#[cfg(test)]
mod board_calls;
#[cfg(test)]
mod pad_shapes_calls;
#[cfg(test)]
mod profiles_calls;
#[cfg(test)]
mod ring_rules_calls;
#[cfg(test)]
mod rows;
#[cfg(test)]
mod scales_calls;
