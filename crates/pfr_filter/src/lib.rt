//! Which frames on the SPI bus of a running bank pass to its flash: those that read, and those that write what its manifest lets
//! its processor write.
#![tactic(auto)]

mod asking;
mod command;
mod judged;
mod judging;
#[cfg(test)]
mod tests;
mod verdict;
mod walking;

pub use judged::Judged;
pub use judging::judge_counted;
pub use verdict::{BlockCause, BusOp, Verdict};
