// The last call of a shelf that failed.
ghost use Rattle.std.specs.Prelude.{◌≡◌};
ghost use Rattle.pfr_shelf.specs.Failures.{failing};

use arrayvec::ArrayVec;
use std::marker::Model;

/// What a call of a shelf was to do.
#[derive(Clone, Copy, Debug, PartialEq, Eq)]
pub enum Access {
    Load,
    Store,
}

/// What the call was to do, and the name that it was given: at most its first 4,096 bytes, which need no memory.
#[derive(Drop)]
pub struct Failure {
    access: Access,
    name: ArrayVec<u8, 4096>,
}

impl Model for Failure {
    ghost use Rattle.pfr_shelf.specs.Failures.{Failure};

    ghost Value = { Failure };

    ghost view = { λ f. record { access = f.access; name = f.name.items } };
}

impl Failure {
    /// The failure of such a call with this name.
    pub fn new(access: Access, name: &str) -> Failure
        ensures { result ≡ failing access name.now }
    {
        let bytes = name.as_bytes();
        let len = bytes.len().min(4096);
        let mut name = ArrayVec::new();
        match name.try_extend_from_slice(&bytes[..len]) {
            Ok(()) => Failure { access, name },
            Err(_) => unreachable!(),
        }
    }
}
