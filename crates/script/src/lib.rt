// Scripts: the call that a line is, with what the line gives for it.
#![tactic(auto)]

pub mod calls;
mod items;
mod options;
pub mod parse;
pub mod print;
pub mod settings;
pub mod text;
