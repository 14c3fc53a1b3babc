// What can be wrong with a line of a script.
ghost use Rattle.std.specs.Prelude.{◌≡◌};
ghost use Rattle.pfr_script.specs.Why.{word_of};

use thiserror::Error;

/// What is wrong with a line, in the order in which it is looked for.
#[derive(Clone, Copy, Debug, PartialEq, Eq, Error)]
pub enum ScriptWhy {
    #[error("an item too many")]
    TooMany,
    #[error("an unknown word, or a wrong count of words, or of spaces between them")]
    Word,
    #[error("no decimal number, or one out of range")]
    Number,
    #[error("a character that is no hex digit, or an odd count of them")]
    Hex,
    #[error("a wrong count of bytes")]
    Length,
    #[error("a cut or a fault too many for this device")]
    TooManyArms,
}

impl ScriptWhy {
    /// The word for it in messages.
    pub fn word(self) -> &'static str
        ensures { result.now ≡ word_of self }
    {
        match self {
            ScriptWhy::TooMany => "too-many",
            ScriptWhy::Word => "word",
            ScriptWhy::Number => "number",
            ScriptWhy::Hex => "hex",
            ScriptWhy::Length => "length",
            ScriptWhy::TooManyArms => "too-many-arms",
        }
    }
}
