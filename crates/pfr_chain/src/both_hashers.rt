// Both digests of one message.
ghost use Rattle.std.specs.Prelude.{◌≡◌};
ghost use Rattle.sha2.specs.Hashers.{Holds256, Holds384};
ghost use Rattle.sha2.specs.Sha256.{sha256};
ghost use Rattle.sha2.specs.Sha512.{sha384};

use sha2::{Digest, Sha256, Sha384};
use std::convert::AsSlice;

/// Both digests of a content.
#[derive(Clone, Copy, Debug)]
pub struct Digests {
    pub sha256: [u8; 32],
    pub sha384: [u8; 48],
}

/// Takes both digests of one message.
#[derive(Drop)]
pub struct BothHashers {
    sha256: Sha256,
    sha384: Sha384,
}

impl Digest for BothHashers {
    type Output = Digests;

    ghost holds = { λ h m. Holds256 h.sha256 m × Holds384 h.sha384 m };

    ghost digest_of = { λ m d. (d.sha256 ≡ sha256 m) × (d.sha384 ≡ sha384 m) };

    ghost size = { 80 };

    fn output_size() -> usize {
        80
    }

    fn new() -> BothHashers {
        BothHashers {
            sha256: Sha256::new(),
            sha384: Sha384::new(),
        }
    }

    fn update<T: AsSlice<u8> + Drop>(&mut self, data: T) {
        let bytes = data.as_slice();
        self.sha256.update(bytes);
        self.sha384.update(bytes);
    }

    fn finalize(self) -> Digests {
        Digests {
            sha256: self.sha256.finalize(),
            sha384: self.sha384.finalize(),
        }
    }
}
