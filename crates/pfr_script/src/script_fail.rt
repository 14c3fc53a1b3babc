// Why a text is no script.
ghost use Rattle.std.specs.Prelude.{◌≡◌};
ghost use Rattle.pfr_script.specs.Reading.{at_line};
ghost use Rattle.pfr_script.specs.declared.script_fail.ScriptFail.TheVariants.{NoMemory};

use crate::script_why::ScriptWhy;
use std::alloc::{AllocError, AllocFailed};
use thiserror::Error;

/// Why a text is no script.
#[derive(Clone, Copy, Debug, PartialEq, Eq, Error)]
pub enum ScriptFail {
    /// What is wrong with the first bad line; lines count from 1.
    #[error("line {line}: {why}")]
    Text { line: u32, why: ScriptWhy },
    #[error("out of memory")]
    NoMemory,
}

impl From<AllocError> for ScriptFail {
    ghost from_gives = { λ _ fail. fail ≡ NoMemory };

    fn from(_: AllocError) -> ScriptFail {
        ScriptFail::NoMemory
    }
}

impl<T: Drop> From<AllocFailed<T>> for ScriptFail {
    ghost from_gives = { λ _ fail. fail ≡ NoMemory };

    fn from(_: AllocFailed<T>) -> ScriptFail {
        ScriptFail::NoMemory
    }
}

/// The same, with the line's number.
pub fn at_line<T: Drop>(line: u32, read: Result<T, ScriptWhy>) -> Result<T, ScriptFail>
    ensures { result ≡ at_line line read }
{
    match read {
        Ok(value) => Ok(value),
        Err(why) => Err(ScriptFail::Text { line, why }),
    }
}
