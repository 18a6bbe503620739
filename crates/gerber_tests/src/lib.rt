//! Tests of the crates that read and write Gerber texts and layers, in both profiles.
#![tactic(auto)]

#[cfg(test)]
mod drawn_calls;
#[cfg(test)]
mod further_pads_calls;
#[cfg(test)]
mod gerber_profiles;
#[cfg(test)]
mod gerber_sayable_calls;
#[cfg(test)]
mod gerber_text_calls;
#[cfg(test)]
mod gerber_writing;
#[cfg(test)]
mod layer_image_calls;
#[cfg(test)]
mod plain_commands;
#[cfg(test)]
mod sayable_lists;
#[cfg(test)]
mod texts;
#[cfg(test)]
mod wide_layers_calls;
