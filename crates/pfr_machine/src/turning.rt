// What is done at each event.
ghost use Rattle.pfr_jobs.specs.Log.{open_job};
ghost use Rattle.pfr_jobs.specs.declared.job.OpenJob.TheVariants as job;
ghost use Rattle.pfr_machine.specs.Inside.{IsMigrated};
ghost use Rattle.pfr_script.specs.Slots.{IsKnownSlot};
ghost use Rattle.pfr_story.specs.Keeping.{IsSettled};
ghost use Rattle.std.specs.Prelude.{◌≡◌, ◌≢◌, ◌⊎◌, ◌*◌, ◌<◌, ◌≤◌, ◌∷◌, [], length, true, false, OnOk, OnErr};
ghost use Rattle.pfr_auth.specs.Trusted.{IsTrusted};
ghost use Rattle.pfr_flash.specs.FlashState.{now};
ghost use Rattle.pfr_flash.specs.declared.names.Bank.{Bank};
ghost use Rattle.pfr_flash.specs.declared.names.Bank.TheVariants.{Bmc, Pch};
ghost use Rattle.pfr_report.specs.Texts.{AllText};
ghost use Rattle.pfr_story.specs.Course.{Follows, Steps};
ghost use Rattle.pfr_story.specs.Goes.{Ran};
ghost use Rattle.pfr_story.specs.Promises.{IsIdle, IsUneventful, Runs};
ghost use Rattle.pfr_story.specs.Standing.{standing_of, is_off, is_running, Off};
ghost use Rattle.pfr_story.specs.Story.{device_of};
ghost use Rattle.pfr_story.specs.Turn.{bank_stretch, course, ignored, is_idle, next_item, off_course, power_course, taken, unreadable};
ghost use Rattle.pfr_story.specs.World.{AreDevices, IsDark, SameDevices, added, state_at, story_of};
ghost use Rattle.pfr_machine.specs.Inside.{AreLit, HasSizes, IsWhole};
ghost use Rattle.pfr_machine.specs.Ready.{BringsBoth, LeavesWhole};
ghost use Rattle.pfr_machine.specs.Turning.{TurnsIf};
ghost use Rattle.pfr_machine.specs.Watching.{clocked};
ghost use Rattle.pfr_engine.specs.Acceptance.{Acceptance};

use crate::inner::Inner;
use crate::working::{Dark, Work};
use pfr_chain::Engine;
use pfr_flash::{Bank, Flash, FlashFail, NoMemory};
use pfr_report::{LockWhy, What};
use pfr_script::Event;
use pfr_story::Line;

impl<F: Flash> Inner<F> {
    /// Begins the next item, with memory for its notes. After want of memory nothing was done.
    pub fn begin(&mut self) -> Result<(), NoMemory>
        requires few { length self.old.notes.list ≤ 64 * self.old.item }
        requires items { self.old.item < 67108863 }
        ensures list { self.new.notes.list ≡ self.old.notes.list }
        ensures spare { OnOk result (64 ≤ self.new.notes.spare) }
        ensures begun { OnOk result (self.new ≡ record (next_item self.old) { notes = self.new.notes }) }
        ensures err { OnErr result (self.new ≡ record self.old { notes = self.new.notes }) }
    {
        self.board.notes.reserve(64)?;
        self.board.item += 1;
        Ok(())
    }

    /// What holds of every platform. This does nothing.
    pub fn known(&self)
        ensures bytes { AreDevices self.now }
        ensures texts { AllText self.now.notes.list }
        ensures sizes { HasSizes self.now }
        ensures lit { AreLit self.now }
    {
        let _ = &self.bmc;
    }

    // Brings up the BMC's bank, and then the PCH's.
    fn bring_up_both<E: Engine>(self, engine: &E) -> Result<Inner<F>, Dark<F>>
        requires room { 14 ≤ self.notes.spare }
        requires settled { IsMigrated (now self.nv) }
        ensures { BringsBoth (bank_stretch (E.accepts engine.now) Bmc ∷ bank_stretch (E.accepts engine.now) Pch ∷ [])
            14 self result }
    {
        self.known();
        self.work(Bank::Bmc, Work::BringUp, engine)?
            .work(Bank::Pch, Work::BringUp, engine)
    }

    // Locks both banks, whose fuses can't be read or migrated.
    fn lock_unread(self) -> Inner<F>
        requires room { 4 ≤ self.notes.spare }
        ensures ran { Ran unreadable self result }
        ensures leaves { LeavesWhole 4 self result }
        ensures some { standing_of Bmc result.notes.list ≢ Off }
    {
        self.hold(Bank::Bmc)
            .lock(LockWhy::StoreFault)
            .hold(Bank::Pch)
            .lock(LockWhy::StoreFault)
    }

    // Reads and migrates the fuses, and brings up both banks.
    fn wake<E: Engine>(mut self, engine: &E) -> Inner<F>
        requires room { 14 ≤ self.notes.spare }
        requires on { self.nv.powered ≡ true }
        ensures steps { Steps (power_course (E.accepts engine.now)).stretches self result }
        ensures leaves { LeavesWhole 14 self result }
        ensures dark { standing_of Bmc result.notes.list ≡ Off → IsDark result }
    {
        match self.prepare() {
            Ok(()) => match self.bring_up_both(engine) {
                Ok(inner) => inner,
                Err(dark) => dark.off(),
            },
            Err(stop) => match stop.fail {
                FlashFail::Fault => self.lock_unread(),
                FlashFail::Lost => self.lose(Some(stop.device)),
            },
        }
    }

    // The power comes on.
    fn power<E: Engine>(mut self, engine: &E) -> Inner<F>
        requires room { 64 ≤ self.notes.spare }
        ensures follows { Follows (power_course (E.accepts engine.now)) self result }
        ensures leaves { LeavesWhole 64 self result }
        ensures dark { standing_of Bmc result.notes.list ≡ Off → IsDark result }
    {
        self.power_store();
        self.note(What::Power);
        self.wake(engine)
    }

    // Notes that the event is ignored, since the banks don't take it as they stand.
    fn ignore(&mut self)
        requires room { 64 ≤ self.old.notes.spare }
        requires whole { IsWhole self.old }
        ensures follows { Follows ignored self.old self.new }
        ensures leaves { LeavesWhole 64 self.old self.new }
        ensures untouched { SameDevices self.old self.new }
    {
        self.note(What::Ignored);
    }

    // Whether the banks are off.
    fn is_off(&self) -> bool
        ensures { result ≡ is_off (standing_of Bmc self.now.notes.list) }
    {
        match self.line(Bank::Bmc) {
            Line::Off => true,
            Line::Locked | Line::Running => false,
        }
    }

    /// Whether the bank runs.
    pub fn runs(&self, bank: Bank) -> bool
        ensures { result ≡ is_running (standing_of bank self.now.notes.list) }
    {
        match self.line(bank) {
            Line::Running => true,
            Line::Off | Line::Locked => false,
        }
    }

    // Whether the banks don't take the event as they stand.
    fn is_idle(&self, event: &Event) -> bool
        ensures { result ≡ is_idle event.now (story_of self.now) }
    {
        match event {
            Event::Power | Event::Tick(_) => false,
            Event::Off | Event::Provision(_) => self.is_off(),
            Event::Spi { bank, .. } | Event::Smbus { bank, .. } | Event::Update { bank, .. } => {
                !self.runs(*bank)
            }
            Event::Boot { bank, .. } => !self.runs(*bank) || self.has_booted(*bank),
        }
    }

    // The power goes off.
    fn off(self) -> Inner<F>
        requires room { 64 ≤ self.notes.spare }
        ensures follows { Follows off_course self result }
        ensures leaves { LeavesWhole 64 self result }
        ensures dark { IsDark result }
    {
        self.lose(None)
    }

    // Does an event that the banks take.
    fn take<E: Engine>(self, event: &Event, engine: &E) -> Inner<F>
        requires room { 64 ≤ self.notes.spare }
        requires whole { IsWhole self }
        requires settled { (which : Bank) → Runs which self → IsSettled (now self.nv) }
        requires idle { (which : Bank) → Runs which self → open_job (now self.nv) which ≡ job.None }
        requires trusted { (which : Bank) → Runs which self →
            IsTrusted (now (state_at (device_of which) self)) (now self.nv) which (E.accepts engine.now) }
        requires taken { is_idle event.now (story_of self) ≡ false }
        ensures follows { Follows (taken (E.accepts engine.now) event.now (story_of self)) (clocked event.now self) result }
        ensures leaves { LeavesWhole 64 self result }
        ensures dark { added self result ≢ [] → standing_of Bmc result.notes.list ≡ Off → IsDark result }
        ensures untouched { IsUneventful event.now self → SameDevices self result }
        ensures spelled { IsKnownSlot event.now }
    {
        match event {
            Event::Power => self.power(engine),
            Event::Off => self.off(),
            Event::Provision(what) => self.provision(what),
            Event::Spi { bank, frame } => self.spi(*bank, frame),
            Event::Smbus { bank, frame } => self.smbus(*bank, frame),
            Event::Tick(n) => self.tick(*n, engine),
            Event::Boot { bank, pass } => self.boot(*bank, *pass, engine),
            Event::Update { bank, intent } => self.update(*bank, *intent, engine),
        }
    }

    /// Does an event by which no bank comes into work, and answers true; else does nothing.
    pub fn pass_by(&mut self, event: &Event) -> bool
        requires room { 64 ≤ self.old.notes.spare }
        requires whole { IsWhole self.old }
        ensures { (accepts : Acceptance) → TurnsIf result accepts event.now self.old self.new }
    {
        if self.is_idle(event) {
            self.ignore();
            return true;
        }
        match event {
            Event::Tick(n) => self.tick_by(*n),
            Event::Boot { bank, pass } => {
                if *pass {
                    self.pass_stage(*bank);
                    true
                } else {
                    false
                }
            }
            _ => false,
        }
    }

    /// Does an event, as the banks stand. A bank that runs is trusted, and has no job open.
    pub fn turn<E: Engine>(mut self, event: &Event, engine: &E) -> Inner<F>
        requires room { 64 ≤ self.notes.spare }
        requires whole { IsWhole self }
        requires settled { (which : Bank) → Runs which self → IsSettled (now self.nv) }
        requires idle { (which : Bank) → Runs which self → open_job (now self.nv) which ≡ job.None }
        requires trusted { (which : Bank) → Runs which self →
            IsTrusted (now (state_at (device_of which) self)) (now self.nv) which (E.accepts engine.now) }
        ensures follows { Follows (course (E.accepts engine.now) event.now (story_of self)) (clocked event.now self) result }
        ensures leaves { LeavesWhole 64 self result }
        ensures dark { is_idle event.now (story_of self) ≡ false → added self result ≢ [] → standing_of Bmc result.notes.list ≡ Off → IsDark result }
        ensures untouched { IsIdle event.now self ⊎ IsUneventful event.now self → SameDevices self result }
        ensures spelled { standing_of Bmc self.notes.list ≢ Off → IsKnownSlot event.now }
    {
        if self.is_idle(event) {
            self.ignore();
            self
        } else {
            self.take(event, engine)
        }
    }
}
