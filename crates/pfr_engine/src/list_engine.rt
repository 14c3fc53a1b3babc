// An engine that accepts the rows of a text.
ghost use Rattle.std.specs.Prelude.{◌≡◌, ◌-◌, ◌^◌, ◌<◌, ◌≤◌, length, IfOk};
ghost use Rattle.pfr_engine.specs.Rows.{Answers, judge_text};

use crate::engine::{Ask, Engine};
use crate::engine_fail::EngineFail;
use crate::reading::read_rows;
use crate::row::{Row, has_long, has_short};
use sha2::{Digest, Sha384};
use std::alloc::Global;
use std::marker::Model;

/// An engine that accepts the rows of a text, and nothing else.
#[derive(Drop)]
pub struct ListEngine {
    rows: Vec<Row>,
}

impl Model for ListEngine {
    ghost use Rattle.std.specs.Prelude.{List, ◌≤◌, length};
    ghost use Rattle.pfr_engine.specs.declared.row.Row.{Row};

    ghost Value = { List Row };

    ghost view = { λ engine. engine.rows.items };

    ghost invariant = { λ engine. length engine.rows.items ≤ 4096 };
}

impl ListEngine {
    /// Reads the rows of a text: one line is one row, with a newline at its end.
    ///
    /// A row of form 1 is six hex words of either case with single spaces between them: curve
    /// (8 digits, the highest first), X, Y (96 each), digest (64 or 96, by the curve), R and S
    /// (96 each). A long row is `long`, scheme (8 digits, the highest first), key (8 to 512
    /// digits), the message's SHA-384 (96) and signature (8 to 16,000); key and signature have
    /// multiples of 8.
    ///
    /// # Errors
    ///
    /// The first thing that is wrong with the first bad line, or want of memory.
    pub fn parse(alloc: Global, text: &[u8]) -> Result<ListEngine, EngineFail>
        requires { length text.now < 2 ^ 32 - 1 }
        ensures exact { Answers result (judge_text text.now) }
        ensures few { IfOk result (λ rows. length rows ≤ 4096) }
    {
        let rows = read_rows(alloc, text)?;
        Ok(ListEngine { rows })
    }

    /// How many rows there are, of both forms.
    pub fn len(&self) -> u32
        ensures { result ≡ length self.now }
    {
        self.rows.len() as u32
    }
}

impl Engine for ListEngine {
    ghost use Rattle.std.specs.Prelude.{◌↔◌, IsTrue, Contains};
    ghost use Rattle.pfr_engine.specs.declared.row.Row.TheVariants.{Short, Long};
    ghost use Rattle.pfr_engine.specs.Accepting.{acceptance, long_ask};

    ghost accepts = { acceptance };

    fn check(&self, ask: &Ask) -> bool
        ensures answer { result ≡ (acceptance self.now).ask ask.now }
        ensures row { IsTrue result ↔ Contains self.now (Short ask.now) }
    {
        has_short(&self.rows, ask)
    }

    fn check_long(&self, scheme: u32, key: &[u8], message: &[u8], signature: &[u8]) -> bool
        ensures answer { result ≡ (acceptance self.now).long scheme key.now message.now signature.now }
        ensures row { IsTrue result ↔ Contains self.now (Long (long_ask scheme key.now message.now signature.now)) }
    {
        let digest = Sha384::digest(message);
        has_long(&self.rows, scheme, key, &digest, signature)
    }
}
