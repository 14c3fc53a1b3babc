// Failures that a script arms.

use pfr_flash::Device;

/// What is armed in a device.
#[derive(Clone, Copy, Debug, PartialEq, Eq)]
pub enum ArmWhat {
    /// The power goes in the middle of an erase or a program, and a tear is left.
    Cut,
    /// An erase or a program fails, and a tear is left.
    Fault,
    /// A read fails.
    ReadFault,
}

/// The nth operation from now on of a device is to fail.
#[derive(Clone, Copy, Debug, PartialEq, Eq)]
pub struct Arm {
    pub device: Device,
    pub what: ArmWhat,
    /// Counts from 1: erases and programs, or reads for a `ReadFault`.
    pub nth: u32,
    /// The number of the tear in its script.
    pub tear: u32,
}
