// The watches over the boots of the banks' processors: they tick, stages are passed, and a bank whose watch expires is restored.
ghost use Rattle.pfr_jobs.specs.Log.{open_job};
ghost use Rattle.pfr_jobs.specs.declared.job.OpenJob.TheVariants as job;
ghost use Rattle.pfr_jobs.specs.LogPlans.{IsKind};
ghost use Rattle.pfr_jobs.specs.declared.job.JobKind.TheVariants.{ActiveFromRecovery};
ghost use Rattle.pfr_machine.specs.Inside.{IsAtRest};
ghost use Rattle.pfr_story.specs.Keeping.{IsSettled};
ghost use Rattle.std.specs.Prelude.{◌≡◌, ◌≢◌, ◌≤◌, [], ◌∷◌, true, false, Ok};
ghost use Rattle.pfr_flash.specs.FlashState.{now, size_of};
ghost use Rattle.pfr_flash.specs.Layout.{IsValidLayout};
ghost use Rattle.pfr_flash.specs.declared.names.Bank.TheVariants.{Bmc, Pch};
ghost use Rattle.pfr_fuses.specs.FusesOf.{fuses_of};
ghost use Rattle.pfr_fuses.specs.RootSlot.{layout_of};
ghost use Rattle.pfr_report.specs.Texts.{HasText};
ghost use Rattle.pfr_report.specs.declared.note.What.TheVariants.{Expired};
ghost use Rattle.pfr_script.specs.declared.event.Event.TheVariants.{Tick};
ghost use Rattle.pfr_story.specs.Course.{Follows, Steps};
ghost use Rattle.pfr_story.specs.Goes.{Ran};
ghost use Rattle.pfr_story.specs.Guards.{guard_at};
ghost use Rattle.pfr_story.specs.Plans.{level_after, recovered_with};
ghost use Rattle.pfr_story.specs.Promises.{IsUneventful, Runs};
ghost use Rattle.pfr_story.specs.Standing.{standing_of, Off};
ghost use Rattle.pfr_story.specs.Story.{Says, device_of};
ghost use Rattle.pfr_story.specs.Turn.{boot_course, expiry_stretch, is_due, pass_note, stage_at, tick_course};
ghost use Rattle.pfr_story.specs.World.{IsDark, SameDevices, added, state_at, story_of};
ghost use Rattle.pfr_watch.specs.Stages.{next_stage};
ghost use Rattle.pfr_watch.specs.Watching.{unless_done};
ghost use Rattle.pfr_machine.specs.Inside.{IsWhole};
ghost use Rattle.pfr_machine.specs.Ready.{Brings, EndsSeated, LeavesWhole};
ghost use Rattle.pfr_machine.specs.Watching.{AreUp, BringsDue, ExpiresDue, clocked};
ghost use Rattle.pfr_machine.specs.Worlds.{IsAwake, with_note};

use crate::desk::{Desk, Halt};
use crate::inner::Inner;
use crate::working::{Dark, Work};
use pfr_auth::Area;
use pfr_chain::Engine;
use pfr_flash::{Bank, Flash};
use pfr_fuses::Fuses;
use pfr_report::{LockWhy, What};
use pfr_watch::{Stage, Watch};

// The level at which a bank is locked in place of a restore.
const SPENT: u8 = 4;

// What is noted of a boot that passed its stage.
fn pass_note(bank: Bank, mut watch: Watch) -> What
    ensures is { result ≡ pass_note bank watch.stage (next_stage watch.stage) }
    ensures text { HasText result }
{
    let stage = watch.stage;
    match watch.pass() {
        Stage::Done => What::Booted { bank },
        _ => What::Passed { bank, stage },
    }
}

impl<F: Flash> Desk<F> {
    /// Restores the bank at a level of recovery from its recovery area, or locks it where no good capsule is there.
    #[inline(never)]
    pub fn recover_at<E: Engine>(
        mut self,
        level: u8,
        fuses: &Fuses,
        engine: &E,
    ) -> Result<Inner<F>, Halt<F>>
        requires room { 2 ≤ self.world.notes.spare }
        requires on { IsAwake self.bank self.world }
        requires none { open_job (now self.world.nv) self.bank ≡ job.None }
        requires found { fuses_of (now self.world.nv) ≡ Ok fuses.now }
        requires valid { let layout = layout_of fuses.now.provision self.bank in
            IsValidLayout layout (size_of (state_at (device_of self.bank) self.world)) }
        requires level { IsKind (ActiveFromRecovery level) }
        ensures { EndsSeated (recovered_with (E.accepts engine.now) self.bank level (Ok fuses.now)) 2 self result }
    {
        match self.judge(Area::Recovery, fuses, engine) {
            Ok(Ok(capsule)) => self.restore_and_check(fuses, &capsule, level, engine),
            Ok(Err(cause)) => Ok(self.lock(LockWhy::NoRecovery(cause))),
            Err(stop) => Err(Halt { stop, desk: self }),
        }
    }
}

impl<F: Flash> Inner<F> {
    // The watch over the boot of a bank's processor.
    fn watch(&self, bank: Bank) -> Watch
        ensures { result ≡ (guard_at bank self.now.guards).watch }
    {
        match bank {
            Bank::Bmc => self.board.watches.bmc,
            Bank::Pch => self.board.watches.pch,
        }
    }

    /// Whether the boot of a bank's processor is done.
    pub fn has_booted(&self, bank: Bank) -> bool
        ensures { result ≡ unless_done (stage_at bank (story_of self.now)) false true }
    {
        self.watch(bank).stage == Stage::Done
    }

    // Notes that the bank's watch expired, and answers how many recoveries there are by that.
    fn note_expiry(&mut self, bank: Bank) -> u8
        requires { 1 ≤ self.old.notes.spare }
        ensures level { result ≡ level_after (guard_at bank self.old.guards).watch }
        ensures noted { self.new ≡ with_note (Expired bank result) self.old }
    {
        let level = self.watch(bank).expire();
        self.note(What::Expired { bank, level });
        level
    }

    // Restores a bank whose watch expired, or locks it: at the last level, or where it can't be restored.
    fn expire<E: Engine>(mut self, bank: Bank, engine: &E) -> Result<Inner<F>, Dark<F>>
        requires room { 8 ≤ self.notes.spare }
        requires rests { IsAtRest bank (now self.nv) }
        ensures { Brings (expiry_stretch (E.accepts engine.now) bank) bank 8 self result }
    {
        let level = self.note_expiry(bank);
        if level < SPENT {
            self.work(bank, Work::Recover { level }, engine)
        } else {
            Ok(self.hold(bank).lock(LockWhy::WatchdogSpent))
        }
    }

    // The same where the watch expired, and nothing where it didn't.
    fn expire_if<E: Engine>(self, due: bool, bank: Bank, engine: &E) -> Result<Inner<F>, Dark<F>>
        requires room { 8 ≤ self.notes.spare }
        requires rests { due ≡ true → IsAtRest bank (now self.nv) }
        ensures { BringsDue due (expiry_stretch (E.accepts engine.now) bank) bank 8 self result }
    {
        if due {
            self.expire(bank, engine)
        } else {
            Ok(self)
        }
    }

    // The banks whose watches expired, one after the other.
    fn expire_due<E: Engine>(self, bmc: bool, pch: bool, engine: &E) -> Result<Inner<F>, Dark<F>>
        requires room { 16 ≤ self.notes.spare }
        requires bmc { bmc ≡ true → AreUp self }
        requires pch { pch ≡ true → AreUp self }
        requires bmc_rests { bmc ≡ true → IsAtRest Bmc (now self.nv) }
        requires pch_rests { pch ≡ true → IsAtRest Pch (now self.nv) }
        ensures { ExpiresDue (E.accepts engine.now) bmc pch 16 self result }
    {
        self.known();
        self.expire_if(bmc, Bank::Bmc, engine)?
            .expire_if(pch, Bank::Pch, engine)
    }

    // Counts the ticks by the watches of the banks that run, and answers of the BMC's and of the PCH's whether it expires.
    fn tick_watches(&mut self, n: u16) -> (bool, bool)
        ensures bmc { result.0 ≡ is_due Bmc n (story_of self.old) }
        ensures pch { result.1 ≡ is_due Pch n (story_of self.old) }
        ensures clocked { self.new ≡ clocked (Tick n) self.old }
    {
        let (bmc, pch) = (self.runs(Bank::Bmc), self.runs(Bank::Pch));
        self.board.watches.tick(n, bmc, pch)
    }

    /// So many ticks pass, of which the watches of the banks that run count all at once, where none of them expires; else
    /// nothing is done.
    pub fn tick_by(&mut self, n: u16) -> bool
        ensures bmc { result ≡ true → is_due Bmc n (story_of self.old) ≡ false }
        ensures pch { result ≡ true → is_due Pch n (story_of self.old) ≡ false }
        ensures clocked { result ≡ true → self.new ≡ clocked (Tick n) self.old }
        ensures left { result ≡ false → self.new ≡ self.old }
    {
        let mut watches = self.board.watches;
        let (bmc, pch) = watches.tick(n, self.runs(Bank::Bmc), self.runs(Bank::Pch));
        if bmc || pch {
            return false;
        }
        self.board.watches = watches;
        true
    }

    /// So many ticks pass, of which the watches of the banks that run count all at once. Then the banks whose watches expired
    /// are restored or locked, the BMC's first.
    pub fn tick<E: Engine>(mut self, n: u16, engine: &E) -> Inner<F>
        requires room { 64 ≤ self.notes.spare }
        requires whole { IsWhole self }
        requires settled { (which : Bank) → Runs which self → IsSettled (now self.nv) }
        requires idle { (which : Bank) → Runs which self → open_job (now self.nv) which ≡ job.None }
        ensures follows { Follows (tick_course (E.accepts engine.now) n (story_of self)) (clocked (Tick n) self) result }
        ensures leaves { LeavesWhole 64 self result }
        ensures dark { added self result ≢ [] → standing_of Bmc result.notes.list ≡ Off → IsDark result }
        ensures untouched { IsUneventful (Tick n) self → SameDevices self result }
    {
        let (bmc, pch) = self.tick_watches(n);
        match self.expire_due(bmc, pch, engine) {
            Ok(inner) => inner,
            Err(dark) => dark.off(),
        }
    }

    // Restores or locks a bank whose boot failed.
    fn fail_boot<E: Engine>(self, bank: Bank, engine: &E) -> Inner<F>
        requires room { 64 ≤ self.notes.spare }
        requires whole { IsWhole self }
        requires runs { Runs bank self }
        requires rests { IsAtRest bank (now self.nv) }
        ensures steps { Steps (expiry_stretch (E.accepts engine.now) bank ∷ []) self result }
        ensures leaves { LeavesWhole 64 self result }
        ensures dark { standing_of Bmc result.notes.list ≡ Off → IsDark result }
    {
        match self.expire(bank, engine) {
            Ok(inner) => inner,
            Err(dark) => dark.off(),
        }
    }

    /// Notes that a bank's boot passed its stage.
    pub fn pass_stage(&mut self, bank: Bank)
        requires room { 64 ≤ self.old.notes.spare }
        requires whole { IsWhole self.old }
        requires runs { Runs bank self.old }
        ensures ran { let stage = stage_at bank (story_of self.old) in
            Ran (Says (λ _. pass_note bank stage (next_stage stage)) ∷ []) self.old self.new }
        ensures leaves { LeavesWhole 64 self.old self.new }
        ensures some { standing_of Bmc self.new.notes.list ≢ Off }
    {
        let what = pass_note(bank, self.watch(bank));
        self.note(what);
    }

    /// The boot of a bank that runs passed its stage or failed.
    pub fn boot<E: Engine>(mut self, bank: Bank, pass: bool, engine: &E) -> Inner<F>
        requires room { 64 ≤ self.notes.spare }
        requires whole { IsWhole self }
        requires runs { Runs bank self }
        requires rests { IsAtRest bank (now self.nv) }
        ensures follows { Follows (boot_course (E.accepts engine.now) bank pass (story_of self)) self result }
        ensures leaves { LeavesWhole 64 self result }
        ensures dark { standing_of Bmc result.notes.list ≡ Off → IsDark result }
    {
        if pass {
            self.pass_stage(bank);
            self
        } else {
            self.fail_boot(bank, engine)
        }
    }
}
