// The calls that examples are made of: what is done with the fields of a line, and what is printed of it.
#![tactic(auto)]

pub mod code_calls;
mod codes;
pub mod cost_calls;
pub mod decoder_calls;
pub mod encoder_calls;
pub mod fields;
pub mod show;
