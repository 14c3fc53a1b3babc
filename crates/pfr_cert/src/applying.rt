// Cancelling the key that a certificate names.
ghost use Rattle.std.specs.Prelude.{◌≡◌, IfErr, OnOk, OnErr, Ok};
ghost use Rattle.std.specs.Option.{option_copied};
ghost use Rattle.pfr_flash.specs.Answer.{IsFound};
ghost use Rattle.pfr_flash.specs.FlashState.{now, size_of};
ghost use Rattle.pfr_flash.specs.FuseRow.{IsCleared};
ghost use Rattle.pfr_flash.specs.Losing.{AddsAtMost, OnlyLoses};
ghost use Rattle.pfr_flash.specs.Range.{IsWithin, SameOutside};
ghost use Rattle.pfr_fuses.specs.Changes.{cancellation, with_cancelled, with_row, CancelsAtMost, StaysButRow};
ghost use Rattle.pfr_fuses.specs.FuseMap.{IsCancelled, IsSigning, profile_of, row_at};
ghost use Rattle.pfr_fuses.specs.FusesOf.{fuses_of, row_fuses, RowStands};
ghost use Rattle.pfr_fuses.specs.FusesState.{row_of};
ghost use Rattle.pfr_fuses.specs.Growth.{Adds, KeepsProvision, NeverGoesBack};
ghost use Rattle.pfr_fuses.specs.declared.profile.Profile.TheVariants.{Two};
ghost use Rattle.pfr_cert.specs.Answer.{cert_failure};
ghost use Rattle.pfr_cert.specs.Applying.{has_signed, is_in_use, judge_apply, Applies};

use crate::cert::Cert;
use crate::fail::CertFail;
use pfr_capsule::Capsule;
use pfr_flash::{ContentType, Flash};
use pfr_fuses::Fuses;

/// Whether the key of this id signed the capsule or its manifest, whichever the type is of.
fn has_signed(capsule: &Capsule, ty: ContentType, id: u8) -> bool
    ensures { result ≡ has_signed capsule.now ty id }
{
    match ty {
        ContentType::PchManifest | ContentType::BmcManifest => capsule.manifest_key() == id,
        ContentType::PchCapsule | ContentType::BmcCapsule => capsule.capsule_key() == id,
        _ => false,
    }
}

/// Whether the capsule of the recovery area, where there is a good one, needs the key.
fn is_in_use(recovery: Option<&Capsule>, cert: &Cert) -> bool
    ensures { result ≡ is_in_use (option_copied recovery.entry) cert.now }
{
    match recovery {
        Some(capsule) => has_signed(capsule, cert.ty, cert.id),
        None => false,
    }
}

/// Whether the key of a certificate can be cancelled.
#[tactic(auto, unfolding(crate::specs::Applying::judge_apply))]
fn check_key(fuses: &Fuses, cert: &Cert, recovery: Option<&Capsule>) -> Result<(), CertFail>
    requires { IsSigning cert.now.ty }
    ensures exact { result ≡ judge_apply fuses.now cert.now (option_copied recovery.entry) }
    ensures unused { OnOk result (¬ IsCleared (row_of fuses.now cert.now.ty) cert.now.id) }
    ensures found { IfErr result (IsFound cert_failure) }
{
    if is_in_use(recovery, cert) {
        return Err(CertFail::KeyInUse);
    }
    if fuses.cancelled(cert.ty, cert.id) {
        return Err(CertFail::AlreadyCancelled);
    }
    Ok(())
}

/// Cancels the key that a certificate names, in a store of profile 2.
///
/// `recovery` is the good capsule of the recovery area of the bank that the key signs for, or `None` where that area has
/// none: a key that it needs is not cancelled. At a refusal that isn't the store's nothing is done. After a failure of
/// the store the key is cancelled in the store or not, and the fuses that are kept don't have it cancelled.
pub fn apply_cert<F: Flash>(
    nv: &mut F,
    fuses: &mut Fuses,
    cert: &Cert,
    recovery: Option<&Capsule>,
) -> Result<(), CertFail>
    requires size { size_of (F.device nv.old) ≡ 32768 }
    requires profile { profile_of (now (F.device nv.old)) ≡ Two }
    requires signing { IsSigning cert.now.ty }
    requires stands { RowStands (now (F.device nv.old)) fuses.old cert.now.ty }
    // Which cause it is, and what is done where there is none.
    ensures applies { Applies (cancellation cert.now.ty cert.now.id) (judge_apply fuses.old cert.now (option_copied recovery.entry))
        (F.device nv.old) (F.device nv.new) result }
    ensures kept { OnOk result (fuses.new ≡ with_cancelled fuses.old cert.now.ty cert.now.id) }
    ensures exact { OnOk result (fuses_of (now (F.device nv.old)) ≡ Ok fuses.old →
        fuses_of (now (F.device nv.new)) ≡ Ok fuses.new) }
    ensures ok { OnOk result (RowStands (now (F.device nv.new)) fuses.new cert.now.ty) }
    ensures done { OnOk result (IsCancelled (now (F.device nv.new)) cert.now.ty cert.now.id) }
    ensures left { OnErr result (fuses.new ≡ fuses.old) }
    // After `Err` too, all else of what is kept is what the store says.
    ensures rest { fuses_of (now (F.device nv.old)) ≡ Ok fuses.old →
        fuses_of (now (F.device nv.new)) ≡ Ok (with_row fuses.new cert.now.ty (row_fuses (now (F.device nv.new)) cert.now.ty)) }
    ensures stays { StaysButRow cert.now.ty (now (F.device nv.old)) fuses.old (now (F.device nv.new)) fuses.new }
    // In the store no other key of the type is cancelled.
    ensures store { CancelsAtMost (now (F.device nv.old)) cert.now.ty cert.now.id (now (F.device nv.new)) }
    // There is one operation at most, and it touches no other byte than those of the type's row.
    ensures count { AddsAtMost 1 (F.device nv.old) (F.device nv.new) }
    ensures within { Adds (IsWithin (row_at Two cert.now.ty) 32) (F.device nv.old) (F.device nv.new) }
    ensures outside { SameOutside (row_at Two cert.now.ty) 32 (now (F.device nv.old)) (now (F.device nv.new)) }
    // The store only loses bits.
    ensures loses { OnlyLoses 0 32768 (F.device nv.old) (F.device nv.new) }
    ensures grows { NeverGoesBack (F.device nv.old) (F.device nv.new) }
    ensures provision { KeepsProvision (F.device nv.old) (F.device nv.new) }
{
    check_key(fuses, cert, recovery)?;
    fuses.cancel(nv, cert.ty, cert.id)?;
    Ok(())
}
