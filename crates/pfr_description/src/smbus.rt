// The SMBus rules that a manifest defines.

/// A device on an SMBus, and the commands that it may be sent: command `c` is bit `c % 8` of byte `c / 8`, the lowest first.
#[derive(Clone, Copy, Debug, PartialEq, Eq)]
pub struct SmbusDescription {
    pub bus: u8,
    pub rule: u8,
    pub address: u8,
    pub commands: [u8; 32],
}
