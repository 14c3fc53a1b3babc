//! Certificates, which cancel a key: reading one, and doing what it says.
#![tactic(auto)]

mod applying;
mod cert;
mod fail;
mod reading;

pub use applying::apply_cert;
pub use cert::Cert;
pub use fail::CertFail;
pub use reading::{cancelling, read_cert};
