// The rules of a deck's records: what each table holds, which record may stand where, and what it must keep to.
#![tactic(auto)]

pub mod admit;
pub mod fault;
pub mod judge;
pub mod section;
pub mod table;
