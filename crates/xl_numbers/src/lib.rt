// The numbers of what a link hears, does and remembers, for those who can't be given an enum: C, and what is kept as text.
#![tactic(auto)]

pub mod codes;
mod details;
pub mod states;
