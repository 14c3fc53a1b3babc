// Work on a bank: it is held for it, and released or locked by it.
ghost use Rattle.pfr_fuses.specs.declared.profile.Profile.TheVariants.{Two};
ghost use Rattle.std.specs.Prelude.{◌≡◌, ◌≤◌, Ok, IfOk, IfErr};
ghost use Rattle.pfr_flash.specs.FlashState.{now, size_of};
ghost use Rattle.pfr_flash.specs.Layout.{IsBankSize, IsValidLayout};
ghost use Rattle.pfr_flash.specs.declared.flash.FlashFail.TheVariants.{Fault};
ghost use Rattle.pfr_flash.specs.declared.names.Bank.TheVariants.{Bmc, Pch};
ghost use Rattle.pfr_fuses.specs.FusesOf.{fuses_of};
ghost use Rattle.pfr_fuses.specs.RootSlot.{layout_of};
ghost use Rattle.pfr_report.specs.Texts.{HasLockText};
ghost use Rattle.pfr_story.specs.Plans.{asks_store, lock_of, ready_in};
ghost use Rattle.pfr_story.specs.Standing.{standing_of, Off};
ghost use Rattle.pfr_story.specs.Story.{then, device_of};
ghost use Rattle.pfr_story.specs.Turn.{fault_of};
ghost use Rattle.pfr_story.specs.World.{IsDark, state_at};
ghost use Rattle.pfr_machine.specs.Worlds.{IsAwake};
ghost use Rattle.pfr_machine.specs.Ready.{Brings, Ended, EndsSeated};
ghost use Rattle.pfr_machine.specs.Inside.{IsMigrated};
ghost use Rattle.pfr_machine.specs.Working.{IsFreeFor, by_fuses, by_work, work_stretch};

use crate::desk::{Desk, Halt};
use crate::inner::Inner;
use pfr_chain::Engine;
use pfr_flash::{Bank, Device, Flash, FlashFail};
use pfr_fuses::{FuseFail, Fuses};
use pfr_report::LockWhy;
use pfr_script::Intent;

/// What a bank is held for.
#[derive(Clone, Copy, Debug, PartialEq, Eq)]
pub enum Work {
    /// Its open job is taken up or given up, and it is checked, and restored where its active image isn't trusted.
    BringUp,
    /// Its active image is restored, at this level of recovery.
    Recover { level: u8 },
    /// It is updated: its active image or its recovery area, or a key is cancelled.
    Update { intent: Intent },
}

/// A platform that lost its power in a call of a device.
#[derive(Drop)]
pub struct Dark<F: Flash> {
    pub inner: Inner<F>,
}

impl<F: Flash> Dark<F> {
    /// The platform, whose banks are both off.
    pub fn off(self) -> Inner<F>
        requires { IsDark self.inner }
        ensures same { result ≡ self.inner }
        ensures bmc { standing_of Bmc result.notes.list ≡ Off }
        ensures pch { standing_of Pch result.notes.list ≡ Off }
    {
        self.inner.known();
        self.inner
    }
}

// What a fault of a device locks the bank in work with.
fn fault_of(device: Device) -> LockWhy
    ensures is { result ≡ fault_of device }
    ensures text { HasLockText result }
{
    match device {
        Device::Bmc | Device::Pch => LockWhy::FlashFault,
        Device::Nv => LockWhy::StoreFault,
    }
}

// Why a bank is locked that has no fuses.
fn lock_of(why: FuseFail) -> LockWhy
    ensures is { result ≡ lock_of why }
    ensures text { HasLockText result }
{
    match why {
        FuseFail::SlotsSpent => LockWhy::SlotsSpent,
        FuseFail::NotProvisioned
        | FuseFail::AlreadyProvisioned
        | FuseFail::LayoutBad(_, _)
        | FuseFail::Flash(_) => LockWhy::Unprovisioned,
    }
}

// The fuses by which a bank of this size can be checked, or why it is locked.
fn ready(bank: Bank, size: u32, found: Result<Fuses, FuseFail>) -> Result<Fuses, LockWhy>
    requires size { IsBankSize size }
    ensures is { result ≡ ready_in bank size found }
    ensures text { IfErr result HasLockText }
    ensures valid { IfOk result (λ fuses. IsValidLayout (layout_of fuses.provision bank) size) }
{
    let fuses = found.map_err(lock_of)?;
    fuses
        .provision()
        .layout(bank)
        .judge(size)
        .map_err(LockWhy::Layout)?;
    Ok(fuses)
}

impl<F: Flash> Desk<F> {
    // Does the work, by these fuses.
    fn carry_on<E: Engine>(self, work: Work, fuses: Fuses, engine: &E) -> Result<Inner<F>, Halt<F>>
        requires room { 5 ≤ self.world.notes.spare }
        requires on { IsAwake self.bank self.world }
        requires free { IsFreeFor work self.bank (now self.world.nv) }
        requires found { fuses_of (now self.world.nv) ≡ Ok fuses }
        requires two { fuses.profile ≡ Two }
        requires valid { let layout = layout_of fuses.provision self.bank in
            IsValidLayout layout (size_of (state_at (device_of self.bank) self.world)) }
        ensures { EndsSeated (by_work (E.accepts engine.now) self.bank work (Ok fuses)) 5 self result }
    {
        match work {
            Work::BringUp => self.bring_up(fuses, engine),
            Work::Recover { level } => self.recover_at(level, &fuses, engine),
            Work::Update { intent } => self.update_as(intent, fuses, engine),
        }
    }

    // Goes on by what the store provisions the platform with.
    fn proceed<E: Engine>(
        self,
        work: Work,
        found: Result<Fuses, FuseFail>,
        engine: &E,
    ) -> Result<Inner<F>, Halt<F>>
        requires room { 5 ≤ self.world.notes.spare }
        requires on { IsAwake self.bank self.world }
        requires free { IsFreeFor work self.bank (now self.world.nv) }
        requires settled { IsMigrated (now self.world.nv) }
        requires found { found ≡ fuses_of (now self.world.nv) }
        ensures { EndsSeated (by_fuses (E.accepts engine.now) work self.bank) 5 self result }
    {
        match ready(self.bank, self.held.size(), found) {
            Ok(fuses) => self.carry_on(work, fuses, engine),
            Err(why) => Ok(self.lock(why)),
        }
    }

    // Reads the fuses, and goes on by them.
    fn work<E: Engine>(mut self, work: Work, engine: &E) -> Result<Inner<F>, Halt<F>>
        requires room { 5 ≤ self.world.notes.spare }
        requires on { IsAwake self.bank self.world }
        requires free { IsFreeFor work self.bank (now self.world.nv) }
        requires settled { IsMigrated (now self.world.nv) }
        ensures { EndsSeated (then asks_store (by_fuses (E.accepts engine.now) work self.bank)) 5 self result }
    {
        match self.load() {
            Ok(found) => self.proceed(work, found, engine),
            Err(stop) => Err(Halt { stop, desk: self }),
        }
    }
}

impl<F: Flash> Halt<F> {
    // Where a device failed the bank is locked; where one lost the power, nothing goes on.
    fn end(self) -> Result<Inner<F>, Dark<F>>
        requires room { 1 ≤ self.desk.world.notes.spare }
        requires on { self.stop.fail ≡ Fault → IsAwake self.desk.bank self.desk.world }
        ensures { Ended self result }
    {
        match self.stop.fail {
            FlashFail::Fault => Ok(self.desk.lock(fault_of(self.stop.device))),
            FlashFail::Lost => Err(Dark {
                inner: self.desk.lose(self.stop.device),
            }),
        }
    }
}

impl<F: Flash> Inner<F> {
    /// Holds the bank for this work. It ends released or locked.
    pub fn work<E: Engine>(self, bank: Bank, work: Work, engine: &E) -> Result<Inner<F>, Dark<F>>
        requires room { 7 ≤ self.notes.spare }
        requires free { IsFreeFor work bank (now self.nv) }
        requires settled { IsMigrated (now self.nv) }
        ensures { Brings (work_stretch (E.accepts engine.now) bank work) bank 7 self result }
    {
        match self.hold(bank).work(work, engine) {
            Ok(inner) => Ok(inner),
            Err(halt) => halt.end(),
        }
    }
}
