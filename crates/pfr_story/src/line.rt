// How a bank stands.

/// How a bank stands.
#[derive(Clone, Copy, Debug, PartialEq, Eq)]
pub enum Line {
    /// It has no power.
    Off,
    /// Its processor is kept in reset until the next power-on.
    Locked,
    /// Its processor runs its firmware.
    Running,
}
