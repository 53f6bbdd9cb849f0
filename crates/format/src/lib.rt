// The records of a deck: their kinds, their bytes, and a reader that takes them off one after another.
#![tactic(auto)]

mod decode;
pub mod fault;
pub mod reader;
pub mod record;
