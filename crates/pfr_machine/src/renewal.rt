// How the recovery area of a bank is updated: from the staging area, where the capsule of the image that runs stands there.
ghost use Rattle.std.specs.Prelude.{◌≡◌, ◌≤◌, true, false, ℕ, Ok, IfOk, IfErr};
ghost use Rattle.pfr_flash.specs.Answer.{IsFound};
ghost use Rattle.pfr_flash.specs.FlashState.{now, size_of};
ghost use Rattle.pfr_flash.specs.Layout.{IsValidLayout};
ghost use Rattle.pfr_flash.specs.declared.layout.Layout.{Layout};
ghost use Rattle.pfr_auth.specs.Answer.{active_failure};
ghost use Rattle.pfr_copy.specs.Applying.{CanCopyOver};
ghost use Rattle.pfr_fuses.specs.FusesOf.{fuses_of};
ghost use Rattle.pfr_fuses.specs.RootSlot.{layout_of};
ghost use Rattle.pfr_fuses.specs.declared.profile.Profile.TheVariants.{Two};
ghost use Rattle.pfr_jobs.specs.Log.{open_job};
ghost use Rattle.pfr_jobs.specs.LogState.{is_spent_in, log_of};
ghost use Rattle.pfr_jobs.specs.declared.job.OpenJob.TheVariants as job;
ghost use Rattle.pfr_manifest.specs.Manifest.{IsManifestOf};
ghost use Rattle.pfr_manifest.specs.Spelling.{manifest_bytes};
ghost use Rattle.pfr_story.specs.Goes.{Goes};
ghost use Rattle.pfr_story.specs.Plans.{asks, judged_active, judged_staging};
ghost use Rattle.pfr_story.specs.Story.{device_of};
ghost use Rattle.pfr_story.specs.UpdatePlans.{by_manifest, by_new_recovery, by_room, has_manifest, recovery_updated};
ghost use Rattle.pfr_story.specs.World.{state_at, story_of};
ghost use Rattle.pfr_machine.specs.Jobs.{CanRenew, IsReady};
ghost use Rattle.pfr_machine.specs.Ready.{EndsSeated};
ghost use Rattle.pfr_machine.specs.Worlds.{IsAwake, Stays};

use crate::desk::{Desk, Halt, device_of};
use crate::inner::Inner;
use pfr_auth::{ActiveFail, Area, active};
use pfr_capsule::Capsule;
use pfr_chain::Engine;
use pfr_flash::Flash;
use pfr_fuses::Fuses;
use pfr_jobs::JobLog;
use pfr_manifest::Manifest;
use pfr_report::Refusal;
use pfr_story::Stop;

// Whether an image is trusted by the manifest of a capsule.
fn has_manifest(image: &Result<Manifest, ActiveFail>, capsule: &Capsule) -> bool
    ensures { (layout : Layout) (size : ℕ) → IfOk image.now (λ m. IsManifestOf (manifest_bytes m) m layout size) →
        IsManifestOf (manifest_bytes capsule.now.manifest) capsule.now.manifest layout size → result ≡ has_manifest capsule.now image.now }
{
    match image {
        Ok(manifest) => manifest.is_same(capsule.manifest()),
        Err(_) => false,
    }
}

impl<F: Flash> Desk<F> {
    /// The manifest by which the active image is trusted, or the first cause against it. The bank isn't released.
    #[inline(never)]
    pub fn judge_image<E: Engine>(
        &mut self,
        fuses: &Fuses,
        engine: &E,
    ) -> Result<Result<Manifest, ActiveFail>, Stop>
        requires on { IsAwake self.old.bank self.old.world }
        requires valid { IsValidLayout (layout_of fuses.now.provision self.old.bank)
            (size_of (state_at (device_of self.old.bank) self.old.world)) }
        ensures goes { Goes (asks self.old.bank) self.old.world self.new.world result }
        ensures is { IfOk result (λ image. image ≡ judged_active (E.accepts engine.now) self.old.bank fuses.now (story_of self.old.world)) }
        ensures cause { IfOk result (λ image. IfErr image (IsFound active_failure)) }
        ensures stays { Stays 0 self.old self.new result }
        ensures store { self.new.world.nv ≡ self.old.world.nv }
        ensures image { now (state_at (device_of self.old.bank) self.new.world) ≡ now (state_at (device_of self.old.bank) self.old.world) }
    {
        let layout = fuses.provision().layout(self.bank);
        match active(self.held.flash(), self.bank, layout, fuses, engine) {
            Ok(manifest) => Ok(Ok(manifest)),
            Err(why) => match why.failure() {
                Some(fail) => Err(Stop {
                    device: device_of(self.bank),
                    fail,
                }),
                None => Ok(Err(why)),
            },
        }
    }

    // Replaces the recovery area by a job, and checks the bank by the fuses as they are then.
    #[inline(never)]
    fn renew_and_check<E: Engine>(
        mut self,
        mut log: JobLog,
        mut fuses: Fuses,
        capsule: &Capsule,
        engine: &E,
    ) -> Result<Inner<F>, Halt<F>>
        requires ready { IsReady 4 self fuses }
        requires stands { log ≡ log_of (now self.world.nv) self.bank }
        requires left { is_spent_in log ≡ false }
        requires can { CanRenew self fuses capsule.now }
        ensures { EndsSeated (by_room false (E.accepts engine.now) self.bank fuses capsule.now) 4 self result }
    {
        match self.recovery_job(&mut log, &mut fuses, capsule, engine) {
            Ok(()) => self.check_then(&fuses, engine),
            Err(stop) => Err(Halt { stop, desk: self }),
        }
    }

    // Replaces the recovery area, unless the log is spent.
    fn renew_by_room<E: Engine>(
        self,
        log: JobLog,
        fuses: Fuses,
        capsule: &Capsule,
        engine: &E,
    ) -> Result<Inner<F>, Halt<F>>
        requires ready { IsReady 4 self fuses }
        requires stands { log ≡ log_of (now self.world.nv) self.bank }
        requires can { CanRenew self fuses capsule.now }
        ensures { EndsSeated (by_room (is_spent_in log) (E.accepts engine.now) self.bank fuses capsule.now) 4 self result }
    {
        if log.is_spent() {
            self.refuse_so(Refusal::JobsSpent, &fuses, engine)
        } else {
            self.renew_and_check(log, fuses, capsule, engine)
        }
    }

    // Replaces the recovery area by the capsule of the image that runs, as the log has room.
    fn renew_by_log<E: Engine>(
        mut self,
        fuses: Fuses,
        capsule: &Capsule,
        engine: &E,
    ) -> Result<Inner<F>, Halt<F>>
        requires ready { IsReady 4 self fuses }
        requires can { CanRenew self fuses capsule.now }
        ensures { EndsSeated (by_manifest true (E.accepts engine.now) self.bank fuses capsule.now) 4 self result }
    {
        match self.load_log() {
            Ok(log) => self.renew_by_room(log, fuses, capsule, engine),
            Err(stop) => Err(Halt { stop, desk: self }),
        }
    }

    // Replaces the recovery area where the capsule is that of the image that runs.
    fn renew_by_manifest<E: Engine>(
        self,
        same: bool,
        fuses: Fuses,
        capsule: &Capsule,
        engine: &E,
    ) -> Result<Inner<F>, Halt<F>>
        requires ready { IsReady 4 self fuses }
        requires can { CanRenew self fuses capsule.now }
        ensures { EndsSeated (by_manifest same (E.accepts engine.now) self.bank fuses capsule.now) 4 self result }
    {
        if same {
            self.renew_by_log(fuses, capsule, engine)
        } else {
            self.refuse_so(Refusal::ManifestDiffers, &fuses, engine)
        }
    }

    // Judges the active image, and replaces the recovery area where the capsule is that of the image.
    #[inline(never)]
    fn renew<E: Engine>(
        mut self,
        fuses: Fuses,
        capsule: &Capsule,
        engine: &E,
    ) -> Result<Inner<F>, Halt<F>>
        requires ready { IsReady 4 self fuses }
        requires good { judged_staging (E.accepts engine.now) self.bank fuses (story_of self.world) ≡ Ok capsule.now }
        requires can { CanRenew self fuses capsule.now }
        ensures { EndsSeated (by_new_recovery (E.accepts engine.now) self.bank fuses (Ok capsule.now)) 4 self result }
    {
        self.known();
        match self.judge_image(&fuses, engine) {
            Ok(image) => {
                let same = has_manifest(&image, capsule);
                self.renew_by_manifest(same, fuses, capsule, engine)
            }
            Err(stop) => Err(Halt { stop, desk: self }),
        }
    }

    /// Updates the recovery area of the bank from its staging area, or refuses to.
    #[inline(never)]
    pub fn update_recovery<E: Engine>(
        mut self,
        fuses: Fuses,
        engine: &E,
    ) -> Result<Inner<F>, Halt<F>>
        requires ready { IsReady 5 self fuses }
        ensures { EndsSeated (recovery_updated (E.accepts engine.now) self.bank fuses) 5 self result }
    {
        match self.judge(Area::Staging, &fuses, engine) {
            Ok(Ok(capsule)) => self.renew(fuses, &capsule, engine),
            Ok(Err(cause)) => self.refuse_so(Refusal::Capsule(cause), &fuses, engine),
            Err(stop) => Err(Halt { stop, desk: self }),
        }
    }
}
