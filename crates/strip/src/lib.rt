// A strip: a row of elements in memory that the caller lends.
#![tactic(auto)]

pub mod row;
