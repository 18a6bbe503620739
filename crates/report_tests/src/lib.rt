//! Tests of what a report holds, of its text and its JSON, and of waivers.
#![tactic(auto)]

#[cfg(test)]
mod causes_calls;
#[cfg(test)]
mod print_json_calls;
#[cfg(test)]
mod print_text_calls;
#[cfg(test)]
mod rows;
#[cfg(test)]
mod waivers_calls;
