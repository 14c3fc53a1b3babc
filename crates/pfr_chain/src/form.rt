// The two forms of a signature block.
ghost use Rattle.std.specs.Prelude.{◌≡◌};
ghost use Rattle.pfr_chain.specs.BlockJudge.{form_of};

/// How a block spells its keys and signatures.
#[derive(Clone, Copy, Debug, PartialEq, Eq)]
pub enum Form {
    One,
    Two,
}

impl Form {
    /// The form whose Block 0 begins with this magic.
    pub fn from_magic(magic: u32) -> Option<Form>
        ensures { result ≡ form_of magic }
    {
        match magic {
            0xB6EA_FD19 => Some(Form::One),
            0xB6EA_FD1A => Some(Form::Two),
            _ => None,
        }
    }
}
