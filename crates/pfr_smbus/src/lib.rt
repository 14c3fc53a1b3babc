//! Which frames on the SMBus of a running bank the rules of its manifest allow.
#![tactic(auto)]

mod cause;
mod frame;
mod judging;
#[cfg(test)]
mod tests;

pub use cause::SmbusCause;
pub use frame::SmbusFrame;
pub use judging::allowed;
