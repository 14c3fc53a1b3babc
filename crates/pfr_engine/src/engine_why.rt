// What can be wrong with a line of an engine's text.
ghost use Rattle.std.specs.Prelude.{◌≡◌};
ghost use Rattle.pfr_engine.specs.Why.{word_of};

use thiserror::Error;

/// What is wrong with a line, in the order in which it is looked for.
#[derive(Clone, Copy, Debug, PartialEq, Eq, Error)]
pub enum EngineWhy {
    #[error("no newline at the end")]
    Newline,
    #[error("a row too many")]
    TooMany,
    #[error("a wrong count of words, or of spaces between them")]
    Words,
    #[error("a character that is no hex digit")]
    Hex,
    #[error("a word of a wrong length")]
    Length,
    #[error("no curve has this number")]
    Curve,
    #[error("a digest of another length than the curve's")]
    Digest,
}

impl EngineWhy {
    /// The word for it in messages.
    pub fn word(self) -> &'static str
        ensures { result.now ≡ word_of self }
    {
        match self {
            EngineWhy::Newline => "newline",
            EngineWhy::TooMany => "too-many",
            EngineWhy::Words => "words",
            EngineWhy::Hex => "hex",
            EngineWhy::Length => "length",
            EngineWhy::Curve => "curve",
            EngineWhy::Digest => "digest",
        }
    }
}
