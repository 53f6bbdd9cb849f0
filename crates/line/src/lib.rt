// The line of waiting trainees, the queue and the stack, and the log.
#![tactic(auto)]

pub mod all;
pub mod line;
pub mod log;
pub mod queue;
pub mod stack;
pub mod waiting;
