// The quota board: caps on a tree of groups.
#![tactic(auto)]

pub mod quota;
pub mod row;
mod sums;
