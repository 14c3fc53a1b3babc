// Why a text is no engine.
ghost use Rattle.std.specs.Prelude.{◌≡◌};
ghost use Rattle.pfr_engine.specs.Rows.{at_line};
ghost use Rattle.pfr_engine.specs.declared.engine_fail.EngineFail.TheVariants.{NoMemory};

use crate::engine_why::EngineWhy;
use std::alloc::{AllocError, AllocFailed};
use thiserror::Error;

/// Why a text is no engine.
#[derive(Clone, Copy, Debug, PartialEq, Eq, Error)]
pub enum EngineFail {
    /// What is wrong with the first bad line; lines count from 1.
    #[error("line {line}: {why}")]
    Text { line: u32, why: EngineWhy },
    #[error("out of memory")]
    NoMemory,
}

impl From<AllocError> for EngineFail {
    ghost from_gives = { λ _ fail. fail ≡ NoMemory };

    fn from(_: AllocError) -> EngineFail {
        EngineFail::NoMemory
    }
}

impl<T: Drop> From<AllocFailed<T>> for EngineFail {
    ghost from_gives = { λ _ fail. fail ≡ NoMemory };

    fn from(_: AllocFailed<T>) -> EngineFail {
        EngineFail::NoMemory
    }
}

/// The same, with the line's number.
pub fn at_line<T: Drop>(line: u32, read: Result<T, EngineWhy>) -> Result<T, EngineFail>
    ensures { result ≡ at_line line read }
{
    match read {
        Ok(value) => Ok(value),
        Err(why) => Err(EngineFail::Text { line, why }),
    }
}
