// How a key is cancelled by a certificate in the staging area of a bank.
ghost use Rattle.std.specs.Prelude.{◌≡◌, ◌≤◌, IfOk, IfErr, OnOk, OnErr, Ok};
ghost use Rattle.pfr_flash.specs.Answer.{IsFound};
ghost use Rattle.pfr_flash.specs.FlashState.{now, size_of};
ghost use Rattle.pfr_flash.specs.Layout.{IsValidLayout};
ghost use Rattle.pfr_flash.specs.declared.names.Bank.{Bank};
ghost use Rattle.pfr_cert.specs.Answer.{cert_failure};
ghost use Rattle.pfr_cert.specs.Applying.{judge_apply, Applies};
ghost use Rattle.pfr_fuses.specs.Changes.{cancellation};
ghost use Rattle.pfr_fuses.specs.FuseMap.{IsSigning};
ghost use Rattle.pfr_fuses.specs.FusesOf.{fuses_of};
ghost use Rattle.pfr_fuses.specs.RootSlot.{layout_of};
ghost use Rattle.pfr_fuses.specs.declared.profile.Profile.TheVariants.{Two};
ghost use Rattle.pfr_jobs.specs.Log.{open_job};
ghost use Rattle.pfr_jobs.specs.LogState.{log_of};
ghost use Rattle.pfr_jobs.specs.declared.job.OpenJob.TheVariants as job;
ghost use Rattle.pfr_report.specs.declared.note.What.TheVariants.{Cancelled};
ghost use Rattle.pfr_story.specs.Goes.{Goes};
ghost use Rattle.pfr_story.specs.Plans.{asks, checked_then};
ghost use Rattle.pfr_story.specs.Story.{device_of, says, then};
ghost use Rattle.pfr_story.specs.UpdatePlans.{by_cert, by_use, judged_cert, key_cancelled, standing_capsule};
ghost use Rattle.pfr_story.specs.World.{state_at, story_of};
ghost use Rattle.pfr_machine.specs.Cancelling.{Clears, cleared_by};
ghost use Rattle.pfr_machine.specs.Inside.{KeepsLaid};
ghost use Rattle.pfr_machine.specs.Ready.{EndsSeated};
ghost use Rattle.pfr_machine.specs.Worlds.{IsAwake, Stays, with_note};

use crate::desk::{Desk, Halt, device_of};
use crate::inner::Inner;
use crate::jobs::store_stop;
use pfr_auth::Area;
use pfr_capsule::{Capsule, CapsuleFail};
use pfr_cert::{Cert, CertFail, apply_cert, read_cert};
use pfr_chain::Engine;
use pfr_flash::{Flash, FlashFail};
use pfr_fuses::Fuses;
use pfr_report::{Refusal, What};
use pfr_story::Stop;

// Cancels the key of a certificate beside what was found in the recovery area.
fn apply_beside<F: Flash>(
    nv: &mut F,
    fuses: &mut Fuses,
    cert: &Cert,
    found: &Result<Capsule, CapsuleFail>,
) -> Result<(), CertFail>
    requires size { size_of (F.device nv.old) ≡ 32768 }
    requires found { fuses_of (now (F.device nv.old)) ≡ Ok fuses.old }
    requires two { fuses.old.profile ≡ Two }
    requires signing { IsSigning cert.now.ty }
    ensures applies { Applies (cancellation cert.now.ty cert.now.id) (judge_apply fuses.old cert.now (standing_capsule found.now))
        (F.device nv.old) (F.device nv.new) result }
    ensures found { OnOk result (fuses_of (now (F.device nv.new)) ≡ Ok fuses.new) }
    ensures left { OnErr result (fuses.new ≡ fuses.old) }
    ensures two { fuses.new.profile ≡ Two }
    ensures provision { fuses.new.provision ≡ fuses.old.provision }
    ensures laid { KeepsLaid (now (F.device nv.old)) (now (F.device nv.new)) }
    ensures size { size_of (F.device nv.new) ≡ size_of (F.device nv.old) }
    ensures logs { (which : Bank) → log_of (now (F.device nv.new)) which ≡ log_of (now (F.device nv.old)) which }
{
    match found {
        Ok(capsule) => apply_cert(nv, fuses, cert, Some(capsule)),
        Err(_) => apply_cert(nv, fuses, cert, None),
    }
}

// Cancels the key of a certificate, or says why it can't be.
fn clear_key<F: Flash>(
    nv: &mut F,
    fuses: &mut Fuses,
    cert: &Cert,
    found: &Result<Capsule, CapsuleFail>,
) -> Result<Result<(), CertFail>, FlashFail>
    requires size { size_of (F.device nv.old) ≡ 32768 }
    requires found { fuses_of (now (F.device nv.old)) ≡ Ok fuses.old }
    requires two { fuses.old.profile ≡ Two }
    requires signing { IsSigning cert.now.ty }
    ensures is { IfOk result (λ done. done ≡ judge_apply fuses.old cert.now (standing_capsule found.now)) }
    ensures cause { IfOk result (λ done. IfErr done (IsFound cert_failure)) }
    ensures clears { Clears cert.now (judge_apply fuses.old cert.now (standing_capsule found.now)) (F.device nv.old) (F.device nv.new) result }
    ensures found { OnOk result (fuses_of (now (F.device nv.new)) ≡ Ok fuses.new) }
    ensures left { IfOk result (λ done. OnErr done (fuses.new ≡ fuses.old)) }
    ensures two { fuses.new.profile ≡ Two }
    ensures provision { fuses.new.provision ≡ fuses.old.provision }
    ensures laid { KeepsLaid (now (F.device nv.old)) (now (F.device nv.new)) }
    ensures size { size_of (F.device nv.new) ≡ size_of (F.device nv.old) }
    ensures logs { (which : Bank) → log_of (now (F.device nv.new)) which ≡ log_of (now (F.device nv.old)) which }
{
    match apply_beside(nv, fuses, cert, found) {
        Ok(()) => Ok(Ok(())),
        Err(why) => match why.failure() {
            Some(fail) => Err(fail),
            None => Ok(Err(why)),
        },
    }
}

impl<F: Flash> Desk<F> {
    // The certificate in the staging area, or the first cause against it.
    fn judge_cert<E: Engine>(
        &mut self,
        fuses: &Fuses,
        engine: &E,
    ) -> Result<Result<Cert, CertFail>, Stop>
        requires on { IsAwake self.old.bank self.old.world }
        requires valid { IsValidLayout (layout_of fuses.now.provision self.old.bank)
            (size_of (state_at (device_of self.old.bank) self.old.world)) }
        ensures goes { Goes (asks self.old.bank) self.old.world self.new.world result }
        ensures is { IfOk result (λ found. found ≡ judged_cert (E.accepts engine.now) self.old.bank fuses.now (story_of self.old.world)) }
        ensures cause { IfOk result (λ found. IfErr found (IsFound cert_failure)) }
        ensures signing { IfOk result (λ found. IfOk found (λ cert. IsSigning cert.ty)) }
        ensures stays { Stays 0 self.old self.new result }
        ensures store { self.new.world.nv ≡ self.old.world.nv }
    {
        let layout = fuses.provision().layout(self.bank);
        match read_cert(self.held.flash(), self.bank, layout, fuses, engine) {
            Ok(cert) => Ok(Ok(cert)),
            Err(why) => match why.failure() {
                Some(fail) => Err(Stop {
                    device: device_of(self.bank),
                    fail,
                }),
                None => Ok(Err(why)),
            },
        }
    }

    // Cancels the key of a certificate, or says why it can't be: the recovery area needs it, or it is cancelled already.
    fn clear_key(
        &mut self,
        fuses: &mut Fuses,
        cert: &Cert,
        found: &Result<Capsule, CapsuleFail>,
    ) -> Result<Result<(), CertFail>, Stop>
        requires on { IsAwake self.old.bank self.old.world }
        requires found { fuses_of (now self.old.world.nv) ≡ Ok fuses.old }
        requires two { fuses.old.profile ≡ Two }
        requires signing { IsSigning cert.now.ty }
        ensures goes { Goes (cleared_by cert.now (judge_apply fuses.old cert.now (standing_capsule found.now))) self.old.world self.new.world result }
        ensures is { IfOk result (λ done. done ≡ judge_apply fuses.old cert.now (standing_capsule found.now)) }
        ensures cause { IfOk result (λ done. IfErr done (IsFound cert_failure)) }
        ensures found { OnOk result (fuses_of (now self.new.world.nv) ≡ Ok fuses.new) }
        ensures left { IfOk result (λ done. OnErr done (fuses.new ≡ fuses.old)) }
        ensures two { fuses.new.profile ≡ Two }
        ensures provision { fuses.new.provision ≡ fuses.old.provision }
        ensures stays { Stays 0 self.old self.new result }
        ensures jobs { (which : Bank) → open_job (now self.new.world.nv) which ≡ open_job (now self.old.world.nv) which }
        ensures flash { state_at (device_of self.old.bank) self.new.world ≡ state_at (device_of self.old.bank) self.old.world }
    {
        match clear_key(&mut self.board.nv, fuses, cert, found) {
            Ok(done) => Ok(done),
            Err(fail) => Err(store_stop(fail)),
        }
    }

    // Notes that the key of a certificate was cancelled.
    fn note_cancelled(&mut self, cert: &Cert)
        requires room { 1 ≤ self.old.world.notes.spare }
        requires signing { IsSigning cert.now.ty }
        ensures noted { self.new ≡ record self.old { world = with_note (Cancelled cert.now.ty cert.now.id) self.old.world } }
    {
        self.note(What::Cancelled {
            ty: cert.ty,
            id: cert.id,
        });
    }

    // Notes that the key was cancelled, and checks the bank by the fuses as they are then.
    fn tell_and_check<E: Engine>(
        mut self,
        cert: &Cert,
        fuses: &Fuses,
        engine: &E,
    ) -> Result<Inner<F>, Halt<F>>
        requires room { 4 ≤ self.world.notes.spare }
        requires on { IsAwake self.bank self.world }
        requires none { open_job (now self.world.nv) self.bank ≡ job.None }
        requires found { fuses_of (now self.world.nv) ≡ Ok fuses.now }
        requires valid { let layout = layout_of fuses.now.provision self.bank in
            IsValidLayout layout (size_of (state_at (device_of self.bank) self.world)) }
        requires signing { IsSigning cert.now.ty }
        ensures { let told = says (λ _. Cancelled cert.now.ty cert.now.id) in
            EndsSeated (then told (checked_then (E.accepts engine.now) self.bank)) 4 self result }
    {
        self.note_cancelled(cert);
        self.check_then(fuses, engine)
    }

    // Cancels the key of a certificate beside what was found in the recovery area, or refuses to.
    fn cancel_beside<E: Engine>(
        mut self,
        cert: &Cert,
        found: &Result<Capsule, CapsuleFail>,
        mut fuses: Fuses,
        engine: &E,
    ) -> Result<Inner<F>, Halt<F>>
        requires room { 4 ≤ self.world.notes.spare }
        requires on { IsAwake self.bank self.world }
        requires none { open_job (now self.world.nv) self.bank ≡ job.None }
        requires found { fuses_of (now self.world.nv) ≡ Ok fuses }
        requires two { fuses.profile ≡ Two }
        requires valid { let layout = layout_of fuses.provision self.bank in
            IsValidLayout layout (size_of (state_at (device_of self.bank) self.world)) }
        requires signing { IsSigning cert.now.ty }
        ensures { let judged = judge_apply fuses cert.now (standing_capsule found.now) in
            EndsSeated (by_use (E.accepts engine.now) self.bank fuses cert.now judged) 4 self result }
    {
        match self.clear_key(&mut fuses, cert, found) {
            Ok(Ok(())) => self.tell_and_check(cert, &fuses, engine),
            Ok(Err(cause)) => self.refuse_so(Refusal::Cert(cause), &fuses, engine),
            Err(stop) => Err(Halt { stop, desk: self }),
        }
    }

    // Judges the recovery area, and cancels the key of a certificate unless a good capsule there needs it.
    fn cancel_by<E: Engine>(
        mut self,
        cert: &Cert,
        fuses: Fuses,
        engine: &E,
    ) -> Result<Inner<F>, Halt<F>>
        requires room { 4 ≤ self.world.notes.spare }
        requires on { IsAwake self.bank self.world }
        requires none { open_job (now self.world.nv) self.bank ≡ job.None }
        requires found { fuses_of (now self.world.nv) ≡ Ok fuses }
        requires two { fuses.profile ≡ Two }
        requires valid { let layout = layout_of fuses.provision self.bank in
            IsValidLayout layout (size_of (state_at (device_of self.bank) self.world)) }
        requires signing { IsSigning cert.now.ty }
        ensures { EndsSeated (by_cert (E.accepts engine.now) self.bank fuses (Ok cert.now)) 4 self result }
    {
        match self.judge(Area::Recovery, &fuses, engine) {
            Ok(found) => self.cancel_beside(cert, &found, fuses, engine),
            Err(stop) => Err(Halt { stop, desk: self }),
        }
    }

    /// Cancels the key that a certificate in the staging area names, or refuses to.
    #[inline(never)]
    pub fn cancel_key<E: Engine>(mut self, fuses: Fuses, engine: &E) -> Result<Inner<F>, Halt<F>>
        requires room { 5 ≤ self.world.notes.spare }
        requires on { IsAwake self.bank self.world }
        requires none { open_job (now self.world.nv) self.bank ≡ job.None }
        requires found { fuses_of (now self.world.nv) ≡ Ok fuses }
        requires two { fuses.profile ≡ Two }
        requires valid { let layout = layout_of fuses.provision self.bank in
            IsValidLayout layout (size_of (state_at (device_of self.bank) self.world)) }
        ensures { EndsSeated (key_cancelled (E.accepts engine.now) self.bank fuses) 5 self result }
    {
        match self.judge_cert(&fuses, engine) {
            Ok(Ok(cert)) => self.cancel_by(&cert, fuses, engine),
            Ok(Err(cause)) => self.refuse_so(Refusal::Cert(cause), &fuses, engine),
            Err(stop) => Err(Halt { stop, desk: self }),
        }
    }
}
