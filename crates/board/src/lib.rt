// Boards: a firm's way of choosing, by the laws it keeps.
#![tactic(auto)]

pub mod board;
pub mod explain;
pub mod marked;
pub mod marks;
pub mod unfit;
