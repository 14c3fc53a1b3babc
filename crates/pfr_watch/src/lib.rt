//! The boot watchdog of a bank while its processor runs.
#![tactic(auto)]

mod stage;
#[cfg(test)]
mod tests;
mod watch;

pub use stage::Stage;
pub use watch::Watch;
