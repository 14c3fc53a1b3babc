// Reading the certificate in a bank's staging area.
ghost use Rattle.std.specs.Prelude.{◌≡◌, ◌+◌, ◌≤◌, IfOk, IfErr, Ok};
ghost use Rattle.pfr_flash.specs.Answer.{Answers, IsFound};
ghost use Rattle.pfr_flash.specs.FlashState.{now, size_of};
ghost use Rattle.pfr_flash.specs.Layout.{IsBankSize, IsValidLayout};
ghost use Rattle.pfr_flash.specs.Reading.{EndsAt, failed_by};
ghost use Rattle.pfr_chain.specs.Answer.{chain_failure};
ghost use Rattle.pfr_fuses.specs.FuseMap.{IsSigning};
ghost use Rattle.pfr_fuses.specs.RootSlot.{layout_of};
ghost use Rattle.pfr_cert.specs.Answer.{cert_failure, IsOfBank};
ghost use Rattle.pfr_cert.specs.Certificate.{cancelling, IsCertificate};
ghost use Rattle.pfr_cert.specs.Judge.{is_of, judge_body, judge_cert, judge_signed, wanted};

use crate::cert::Cert;
use crate::fail::CertFail;
use pfr_chain::{ChainFail, Engine, content_type, verify};
use pfr_flash::{Bank, ContentType, Flash, FuseRow, Layout, array_at, number_at};
use pfr_fuses::Fuses;

/// The length of what a certificate signs.
const BODY: usize = 128;

/// Zeros behind the key's id.
const ZEROS: [u8; 124] = [0; 124];

/// What is signed as a certificate against keys of a type.
#[derive(Clone, Copy)]
pub struct Signed {
    pub ty: ContentType,
    pub body: [u8; BODY],
}

/// The signing type that a certificate is looked for against, by the type that Block 0 names.
fn wanted(bank: Bank, named: Option<ContentType>) -> ContentType
    ensures exact { result ≡ wanted bank named }
    ensures signing { IsSigning result }
{
    match named {
        Some(ContentType::PchManifestCancel) => ContentType::PchManifest,
        Some(ContentType::PchCapsuleCancel) => ContentType::PchCapsule,
        Some(ContentType::BmcManifestCancel) => ContentType::BmcManifest,
        Some(ContentType::BmcCapsuleCancel) => ContentType::BmcCapsule,
        _ => bank.manifest_type(),
    }
}

/// The type of the certificates that cancel a key of a signing type; another type as it is.
pub fn cancelling(ty: ContentType) -> ContentType
    ensures { result ≡ cancelling ty }
{
    match ty {
        ContentType::PchManifest => ContentType::PchManifestCancel,
        ContentType::PchCapsule => ContentType::PchCapsuleCancel,
        ContentType::BmcManifest => ContentType::BmcManifestCancel,
        ContentType::BmcCapsule => ContentType::BmcCapsuleCancel,
        other => other,
    }
}

/// Whether the bank's manifests or its capsules have this type.
fn is_of(bank: Bank, ty: ContentType) -> bool
    ensures { result ≡ is_of bank ty }
{
    match bank {
        Bank::Bmc => matches!(ty, ContentType::BmcManifest | ContentType::BmcCapsule),
        Bank::Pch => matches!(ty, ContentType::PchManifest | ContentType::PchCapsule),
    }
}

/// What is signed as a certificate at a place within a length. No key is cancelled for certificates.
#[tactic(auto, using(pfr_flash::proofs::EndsLemmas::then_ends), unfolding(crate::specs::Judge::judge_signed))]
fn signed_at<F: Flash, E: Engine>(
    flash: &mut F,
    place: u32,
    len: u32,
    bank: Bank,
    root: &[u8; 32],
    engine: &E,
) -> Result<Signed, ChainFail>
    requires inside { place + len ≤ size_of (F.device flash.old) }
    requires room { 128 ≤ len }
    ensures exact { Answers chain_failure result
        (judge_signed (now (F.device flash.old)) place len bank root.now (E.accepts engine.now)) }
    ensures signing { IfOk result (λ signed. IsSigning signed.ty) }
    ensures ends { EndsAt (failed_by chain_failure result) (F.device flash.old) (F.device flash.new) }
{
    let ty = wanted(bank, content_type(flash, place)?);
    let cancelled = FuseRow::new([0xFF; 32]);
    let chain = verify(flash, place, len, cancelling(ty), root, &cancelled, engine)?;
    let mut body = [0; BODY];
    flash.read(chain.content_at, &mut body)?;
    Ok(Signed { ty, body })
}

/// The id of the key that the signed bytes name.
#[tactic(auto, unfolding(crate::specs::Judge::judge_body))]
fn key_id(body: &[u8; BODY]) -> Result<u8, CertFail>
    ensures exact { result ≡ judge_body body.now }
    ensures found { IfErr result (IsFound cert_failure) }
    ensures bank { IfErr result IsOfBank }
{
    let id = number_at(body, 0);
    if array_at::<124>(body, 4) != ZEROS {
        return Err(CertFail::Body);
    }
    if id > 255 {
        return Err(CertFail::KeyId);
    }
    Ok(id as u8)
}

/// The certificate in a bank's staging area, as the judgement alone.
#[tactic(auto, using(pfr_flash::proofs::EndsLemmas::then_ends), unfolding(crate::specs::Judge::judge_cert))]
fn judged<F: Flash, E: Engine>(
    flash: &mut F,
    bank: Bank,
    layout: &Layout,
    fuses: &Fuses,
    engine: &E,
) -> Result<Cert, CertFail>
    requires layout { layout.now ≡ layout_of fuses.now.provision bank }
    requires valid { IsValidLayout layout.now (size_of (F.device flash.old)) }
    ensures exact { Answers cert_failure result
        (judge_cert bank (now (F.device flash.old)) fuses.now (E.accepts engine.now)) }
    ensures signing { IfOk result (λ cert. IsSigning cert.ty) }
    ensures bank { IfErr result IsOfBank }
    ensures ends { EndsAt (failed_by cert_failure result) (F.device flash.old) (F.device flash.new) }
{
    let root = &fuses.provision().root;
    let signed = signed_at(
        flash,
        layout.staging_at,
        layout.area_len,
        bank,
        root,
        engine,
    )
    .map_err(CertFail::Chain)?;
    let id = key_id(&signed.body)?;
    if !is_of(bank, signed.ty) {
        return Err(CertFail::OtherBank);
    }
    Ok(Cert { ty: signed.ty, id })
}

/// Reads the certificate that stands at the beginning of a bank's staging area.
///
/// The layout is the bank's of the provision that `fuses` were read with. The root signs certificates, so no
/// cancellation is asked for.
pub fn read_cert<F: Flash, E: Engine>(
    flash: &mut F,
    bank: Bank,
    layout: &Layout,
    fuses: &Fuses,
    engine: &E,
) -> Result<Cert, CertFail>
    requires size { IsBankSize (size_of (F.device flash.old)) }
    requires layout { layout.now ≡ layout_of fuses.now.provision bank }
    requires valid { IsValidLayout layout.now (size_of (F.device flash.old)) }
    // What is found is a certificate.
    ensures ok { let image = now (F.device flash.old) in
        IfOk result (IsCertificate image layout.now.staging_at layout.now.area_len bank fuses.now.provision.root (E.accepts engine.now)) }
    // A certificate is found, unless the device fails.
    ensures only { let image = now (F.device flash.old) in
        (cert : Cert) → IsCertificate image layout.now.staging_at layout.now.area_len bank fuses.now.provision.root (E.accepts engine.now) cert →
        Answers cert_failure result (Ok cert) }
    // Which cause it is: the first in order.
    ensures exact { Answers cert_failure result
        (judge_cert bank (now (F.device flash.old)) fuses.now (E.accepts engine.now)) }
    // Its key is one that can be cancelled.
    ensures signing { IfOk result (λ cert. IsSigning cert.ty) }
    // What is refused is so by the bank's bytes, or since the bank's flash failed.
    ensures bank { IfErr result IsOfBank }
    ensures ends { EndsAt (failed_by cert_failure result) (F.device flash.old) (F.device flash.new) }
{
    judged(flash, bank, layout, fuses, engine)
}
