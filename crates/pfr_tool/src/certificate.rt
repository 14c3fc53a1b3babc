// Certificates, which cancel keys.
ghost use Rattle.std.specs.Prelude.{◌≡◌, vec_len, IfOk};
ghost use Rattle.pfr_fuses.specs.FuseMap.{IsSigning};
ghost use Rattle.pfr_made.specs.Certificates.{certificate_body, certificate_bytes, certificate_row};
ghost use Rattle.pfr_made.specs.Trust.{IsWorthyCert};

use crate::block::sign_by_root;
use crate::writing::{pad, push_number};
use pfr_cert::cancelling;
use pfr_description::Description;
use pfr_flash::{Bytes, ContentType, NoMemory};
use std::alloc::Global;

const BODY: usize = 128;

/// A certificate, and the engine's row of its signature.
#[derive(Drop)]
pub struct MadeCert {
    pub cert: Bytes,
    pub rows: Bytes,
}

#[tactic(auto, unfolding(pfr_made::specs::Certificates::certificate_body))]
fn certificate_body(alloc: Global, id: u8) -> Result<Vec<u8>, NoMemory>
    ensures bytes { IfOk result (λ body. body.items ≡ certificate_body id) }
    ensures len { IfOk result (λ body. vec_len body ≡ 128) }
{
    let mut body = Vec::new(alloc);
    push_number(&mut body, u32::from(id))?;
    pad(&mut body, BODY)?;
    Ok(body)
}

/// Makes the certificate that cancels the key of this id for a signing type.
#[tactic(auto, using(pfr_made::proofs::CertMade::worthy_cert))]
pub fn make_cert(
    alloc: Global,
    desc: &Description,
    ty: ContentType,
    id: u8,
) -> Result<MadeCert, NoMemory>
    requires { IsSigning ty }
    ensures cert { IfOk result (λ made. made.cert ≡ certificate_bytes desc.now ty id) }
    ensures rows { IfOk result (λ made. made.rows ≡ certificate_row desc.now ty id) }

    // With the store of the same description the bank of the type takes it, for any engine that accepts the row.
    ensures worth { IfOk result (λ made. IsWorthyCert desc.now ty id made.cert made.rows) }
{
    desc.sound();
    let body = certificate_body(alloc, id)?;
    let signed = sign_by_root(alloc, desc, cancelling(ty), &body)?;
    Ok(MadeCert {
        cert: Bytes::new(signed.bytes),
        rows: Bytes::new(signed.rows),
    })
}
