// What a call of a shelf or a sink answers where it is not done.

use thiserror::Error;

/// Why a shelf's call was not done.
#[derive(Clone, Copy, Debug, PartialEq, Eq, Error)]
pub enum ShelfFail {
    /// The shelf itself failed, or holds no file of that name.
    #[error("the shelf failed")]
    Failed,
    /// The file has more bytes than the caller takes.
    #[error("the file is too long")]
    TooLong,
    #[error("there is no memory for the file")]
    NoMemory,
}

/// The sink failed.
#[derive(Clone, Copy, Debug, PartialEq, Eq)]
pub struct SinkFail;
