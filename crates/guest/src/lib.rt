// A board of somebody else, and code that knows of a board no more than its laws.
#![tactic(auto)]

pub mod laws;
pub mod threshold;
pub mod under;
