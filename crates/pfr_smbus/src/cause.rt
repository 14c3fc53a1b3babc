// Why a frame on an SMBus is blocked.

/// Why a frame on an SMBus is blocked: the first of these that is so.
#[derive(Clone, Copy, Debug, PartialEq, Eq)]
pub enum SmbusCause {
    /// It has fewer than three bytes.
    ShortFrame,
    /// Its address is over 127.
    BadAddress,
    /// No rule is for its bus and address.
    NoRule,
    /// None of the rules that are for its bus and address has its command.
    Command,
}
