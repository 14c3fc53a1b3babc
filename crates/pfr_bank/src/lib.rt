//! The states of a bank, each of which owns the bank's flash. Only a bank that is held lends it.
#![tactic(auto)]

mod bus;
mod checked;
mod held;
mod locked;
mod off;
mod room;
mod running;
#[cfg(test)]
mod tests;

pub use checked::{Checked, Unchecked};
pub use held::Held;
pub use locked::Locked;
pub use off::Off;
pub use room::Room;
pub use running::Running;
