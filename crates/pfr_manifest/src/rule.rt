// A rule of the SMBus.

/// The commands that a device on a bus is allowed: command `c` is bit `c % 8` of byte `c / 8`.
#[derive(Clone, Copy, Debug, Default, PartialEq, Eq)]
pub struct Rule {
    pub reserved: [u8; 4],
    pub bus: u8,
    pub rule: u8,
    pub address: u8,
    pub commands: [u8; 32],
}
