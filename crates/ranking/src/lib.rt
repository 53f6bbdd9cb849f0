// The order of a dredger's contracts, and the contracts of a list in that order.
#![tactic(auto)]

mod key;
pub mod rank;
pub mod row;
