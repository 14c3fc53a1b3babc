// A bank in work.
ghost use Rattle.std.specs.Prelude.{◌≡◌, ◌≤◌, Bool, [], ◌∷◌, true, false, Some, Ok, Err, IfOk, IfErr};
ghost use Rattle.pfr_flash.specs.Answer.{IsFound};
ghost use Rattle.pfr_flash.specs.FlashState.{now, size_of};
ghost use Rattle.pfr_flash.specs.Layout.{IsValidLayout};
ghost use Rattle.pfr_flash.specs.declared.names.Bank.{Bank};
ghost use Rattle.pfr_auth.specs.Answer.{active_failure};
ghost use Rattle.pfr_capsule.specs.Answer.{capsule_failure};
ghost use Rattle.pfr_auth.specs.Areas.{judge_area};
ghost use Rattle.pfr_auth.specs.declared.areas.Area.TheVariants.{Staging};
ghost use Rattle.pfr_copy.specs.Applying.{CanApply, CanCopyOver};
ghost use Rattle.pfr_fuses.specs.FusesOf.{fuses_of};
ghost use Rattle.pfr_fuses.specs.RootSlot.{layout_of};
ghost use Rattle.pfr_report.specs.Texts.{HasLockText, HasText};
ghost use Rattle.pfr_report.specs.declared.note.What.TheVariants.{Released, Locked, Lost, Untrusted};
ghost use Rattle.pfr_story.specs.Goes.{Goes, Ran};
ghost use Rattle.pfr_story.specs.Guards.{latch_after};
ghost use Rattle.pfr_story.specs.Plans.{asks, asks_store, mine, restored};
ghost use Rattle.pfr_story.specs.UpdatePlans.{updated};
ghost use Rattle.pfr_jobs.specs.Log.{open_job};
ghost use Rattle.pfr_jobs.specs.LogPlans.{IsKind};
ghost use Rattle.pfr_jobs.specs.declared.job.JobKind.TheVariants.{ActiveFromRecovery};
ghost use Rattle.pfr_jobs.specs.declared.job.OpenJob.TheVariants as job;
ghost use Rattle.pfr_story.specs.Standing.{Standing, standing_after};
ghost use Rattle.pfr_story.specs.Story.{Says, device_of};
ghost use Rattle.pfr_story.specs.World.{IsDark, counts_in, state_at, story_of};
ghost use Rattle.pfr_machine.specs.Inside.{IsDesk, IsLaid};
ghost use Rattle.pfr_machine.specs.Worlds.{AddsNotes, IsAwake, Stays, desk_world, flash_in, latch_in, latches_by, sits_in, with_note};
ghost use Rattle.pfr_machine.specs.Ready.{Checks, LeavesSeated};

use crate::board::Board;
use crate::inner::Inner;
use crate::judging::read_fuses;
use crate::seat::Seat;
use crate::sides::{Sides, counts_by};
use pfr_auth::{ActiveFail, Area, capsule_at};
use pfr_bank::{Checked, Held, Unchecked};
use pfr_capsule::{Capsule, CapsuleFail};
use pfr_chain::Engine;
use pfr_flash::{Bank, Counts, Device, Flash};
use pfr_fuses::{FuseFail, Fuses};
use pfr_jobs::JobKind;
use pfr_report::{LockWhy, What};
use pfr_story::Stop;
use std::marker::Model;

/// A bank in work, which is held, the other one as it stands, and what they share.
#[derive(Drop)]
pub struct Desk<F: Flash> {
    pub bank: Bank,
    pub held: Held<F>,
    pub other: Seat<F>,
    pub board: Board<F>,
}

/// Work on a bank that a call of a device cut short.
#[derive(Drop)]
pub struct Halt<F: Flash> {
    pub stop: Stop,
    pub desk: Desk<F>,
}

/// What a check of the active image comes to.
#[derive(Drop)]
pub enum Found<F: Flash> {
    /// It is trusted, and the bank was released.
    Released(Inner<F>),
    /// It isn't, for this cause, and the bank is in work still.
    Distrusted(Desk<F>, ActiveFail),
}

impl<F: Flash> Model for Desk<F> {
    ghost use Rattle.std.specs.Prelude.{false};
    ghost use Rattle.pfr_machine.specs.Inside.{IsDesk};
    ghost use Rattle.pfr_machine.specs.Worlds.{DeskState, desk_world, flash_in, latch_in, latches_by, line_in, sits_in};

    ghost Value = { DeskState };

    ghost view = { λ d. record {
      bank = d.bank;
      other = line_in d.other;
      world = desk_world d.bank (F.device d.held.flash) (F.device (flash_in d.other)) (F.device d.board.nv)
          (latches_by d.bank false (latch_in d.other)) d.board;
    } };

    ghost invariant = { λ d. IsDesk d.bank d.held.bank (sits_in d.other)
        (desk_world d.bank (F.device d.held.flash) (F.device (flash_in d.other)) (F.device d.board.nv)
        (latches_by d.bank false (latch_in d.other)) d.board) };
}

/// The device of a bank.
pub fn device_of(bank: Bank) -> Device
    ensures { result ≡ device_of bank }
{
    match bank {
        Bank::Bmc => Device::Bmc,
        Bank::Pch => Device::Pch,
    }
}

// Releases a bank whose active image is trusted. Kept apart for LLVM, which is busy without end where this is inlined.
#[inline(never)]
fn release<F: Flash>(
    bank: Bank,
    checked: Checked<F>,
    other: Seat<F>,
    mut board: Board<F>,
    counts: Counts,
) -> Inner<F>
    requires room { 1 ≤ board.notes.spare }
    requires desk { IsDesk bank checked.bank (sits_in other)
        (desk_world bank (F.device checked.flash) (F.device (flash_in other)) (F.device board.nv)
        (latches_by bank false (latch_in other)) board) }
    requires on { (F.device checked.flash).powered ≡ true }
    requires laid { IsLaid bank checked.layout (now (F.device board.nv)) }
    ensures { result ≡ with_note (Released bank checked.manifest.svn counts)
        (desk_world bank (F.device checked.flash) (F.device (flash_in other)) (F.device board.nv)
        (latches_by bank false (latch_in other)) board) }
{
    let running = checked.release();
    let svn = running.manifest().svn;
    board.push(What::Released { bank, svn, counts });
    Sides {
        bank,
        mine: Seat::Running(running),
        other,
        board,
    }
    .inner()
}

impl<F: Flash> Desk<F> {
    /// How many operations each device has done.
    pub fn counts(&self) -> Counts
        ensures { result ≡ counts_in self.now.world }
    {
        let (mine, other) = (self.held.op_count(), self.other.op_count());
        counts_by(self.bank, mine, other, self.board.nv.op_count())
    }

    /// What the store provisions the platform with, or why it doesn't.
    pub fn load(&mut self) -> Result<Result<Fuses, FuseFail>, Stop>
        requires on { IsAwake self.old.bank self.old.world }
        ensures goes { Goes asks_store self.old.world self.new.world result }
        ensures found { IfOk result (λ found. found ≡ fuses_of (now self.new.world.nv)) }
        ensures stays { Stays 0 self.old self.new result }
    {
        match read_fuses(&mut self.board.nv) {
            Ok(found) => Ok(found),
            Err(fail) => Err(Stop {
                device: Device::Nv,
                fail,
            }),
        }
    }

    /// The capsule in an area of the bank, or the first cause against it.
    pub fn judge<E: Engine>(
        &mut self,
        area: Area,
        fuses: &Fuses,
        engine: &E,
    ) -> Result<Result<Capsule, CapsuleFail>, Stop>
        requires on { IsAwake self.old.bank self.old.world }
        requires valid { IsValidLayout (layout_of fuses.now.provision self.old.bank)
            (size_of (state_at (device_of self.old.bank) self.old.world)) }
        ensures goes { Goes (asks self.old.bank) self.old.world self.new.world result }
        ensures is { IfOk result (λ found.
            found ≡ judge_area area self.old.bank (mine self.old.bank (story_of self.old.world)) fuses.now (E.accepts engine.now)) }
        ensures cause { IfOk result (λ found. IfErr found (IsFound capsule_failure)) }
        ensures can { let layout = layout_of fuses.now.provision self.old.bank in
            IfOk result (λ found. IfOk found (CanApply (now (state_at (device_of self.old.bank) self.new.world)) layout)) }
        ensures can_copy { let layout = layout_of fuses.now.provision self.old.bank in
            area ≡ Staging → IfOk result (λ found. IfOk found (CanCopyOver (now (state_at (device_of self.old.bank) self.new.world)) layout)) }
        ensures svn { IfOk result (λ found. IfOk found (λ c. c.manifest.svn ≤ 127)) }
        ensures stays { Stays 0 self.old self.new result }
        ensures store { self.new.world.nv ≡ self.old.world.nv }
        ensures image { now (state_at (device_of self.old.bank) self.new.world) ≡ now (state_at (device_of self.old.bank) self.old.world) }
    {
        let layout = fuses.provision().layout(self.bank);
        match capsule_at(self.held.flash(), area, self.bank, layout, fuses, engine) {
            Ok(capsule) => Ok(Ok(capsule)),
            Err(why) => match why.failure() {
                Some(fail) => Err(Stop {
                    device: device_of(self.bank),
                    fail,
                }),
                None => Ok(Err(why)),
            },
        }
    }

    /// Notes something by which no bank stands otherwise, and no latch moves.
    pub fn note(&mut self, what: What)
        requires room { 1 ≤ self.old.world.notes.spare }
        requires text { HasText what }
        requires still { (which : Bank) (s : Standing) → standing_after which what s ≡ s }
        requires still_latch { (which : Bank) (latch : Bool) → latch_after which what latch ≡ latch }
        ensures noted { self.new ≡ record self.old { world = with_note what self.old.world } }
    {
        self.board.push(what);
    }

    /// Restores the active image from the capsule in the recovery area, at a level of recovery.
    pub fn restore(&mut self, fuses: &Fuses, capsule: &Capsule, level: u8) -> Result<(), Stop>
        requires room { 1 ≤ self.old.world.notes.spare }
        requires on { IsAwake self.old.bank self.old.world }
        requires none { open_job (now self.old.world.nv) self.old.bank ≡ job.None }
        requires can { CanApply (now (state_at (device_of self.old.bank) self.old.world))
            (layout_of fuses.now.provision self.old.bank) capsule.now }
        requires level { IsKind (ActiveFromRecovery level) }
        ensures goes { Goes (restored self.old.bank level fuses.now capsule.now) self.old.world self.new.world result }
        ensures fuses { fuses_of (now self.new.world.nv) ≡ fuses_of (now self.old.world.nv) }
        ensures stays { Stays 1 self.old self.new result }
    {
        let kind = JobKind::ActiveFromRecovery { level };
        let bank = self.bank;
        self.with_job(fuses, capsule, kind, What::Restored { bank, level })
    }

    /// Updates the active image from the capsule in the staging area: with all of its regions where `dynamic`, else with the
    /// static ones.
    pub fn update(&mut self, fuses: &Fuses, capsule: &Capsule, dynamic: bool) -> Result<(), Stop>
        requires room { 1 ≤ self.old.world.notes.spare }
        requires on { IsAwake self.old.bank self.old.world }
        requires none { open_job (now self.old.world.nv) self.old.bank ≡ job.None }
        requires can { CanApply (now (state_at (device_of self.old.bank) self.old.world))
            (layout_of fuses.now.provision self.old.bank) capsule.now }
        ensures goes { Goes (updated self.old.bank dynamic fuses.now capsule.now) self.old.world self.new.world result }
        ensures fuses { fuses_of (now self.new.world.nv) ≡ fuses_of (now self.old.world.nv) }
        ensures stays { Stays 1 self.old self.new result }
    {
        let kind = JobKind::ActiveFromStaging { dynamic };
        let (bank, svn) = (self.bank, capsule.manifest().svn);
        self.with_job(fuses, capsule, kind, What::Updated { bank, dynamic, svn })
    }

    /// Notes that the active image isn't trusted.
    pub fn distrust(&mut self, why: ActiveFail)
        requires room { 1 ≤ self.old.world.notes.spare }
        requires cause { IsFound active_failure why }
        ensures noted { self.new ≡ record self.old { world = with_note (Untrusted self.old.bank why) self.old.world } }
    {
        let bank = self.bank;
        self.note(What::Untrusted { bank, why });
    }

    /// Checks the active image, and releases the bank where it is trusted.
    pub fn check<E: Engine>(self, fuses: &Fuses, engine: &E) -> Result<Found<F>, Halt<F>>
        requires room { 1 ≤ self.world.notes.spare }
        requires on { IsAwake self.bank self.world }
        requires found { fuses_of (now self.world.nv) ≡ Ok fuses.now }
        requires valid { IsValidLayout (layout_of fuses.now.provision self.bank)
            (size_of (state_at (device_of self.bank) self.world)) }
        ensures checks { Checks (E.accepts engine.now) fuses.now self result }
    {
        let counts = self.counts();
        let Desk {
            bank,
            held,
            other,
            board,
        } = self;
        let layout = fuses.provision().layout(bank);
        match held.check(layout, fuses, engine) {
            Ok(checked) => Ok(Found::Released(release(bank, checked, other, board, counts))),
            Err(Unchecked { held, why }) => {
                let desk = Desk {
                    bank,
                    held,
                    other,
                    board,
                };
                match why.failure() {
                    Some(fail) => Err(Halt {
                        stop: Stop {
                            device: device_of(bank),
                            fail,
                        },
                        desk,
                    }),
                    None => Ok(Found::Distrusted(desk, why)),
                }
            }
        }
    }

    /// Locks the bank.
    pub fn lock(self, why: LockWhy) -> Inner<F>
        requires room { 1 ≤ self.world.notes.spare }
        requires text { HasLockText why }
        requires on { IsAwake self.bank self.world }
        ensures ran { Ran (Says (Locked self.bank why) ∷ []) self.world result }
        ensures leaves { LeavesSeated 1 self result }
    {
        let counts = self.counts();
        let Desk {
            bank,
            held,
            other,
            mut board,
        } = self;
        board.push(What::Locked { bank, why, counts });
        Sides {
            bank,
            mine: Seat::Locked(held.lock()),
            other,
            board,
        }
        .inner()
    }

    /// Notes that a device lost the power, and takes it from every device.
    pub fn lose(self, device: Device) -> Inner<F>
        requires room { 1 ≤ self.world.notes.spare }
        ensures ran { Ran (Says (Lost (Some device)) ∷ []) self.world result }
        ensures dark { IsDark result }
        ensures notes { AddsNotes 1 self.world.notes result.notes }
    {
        let Desk {
            bank,
            held,
            other,
            board,
        } = self;
        Sides {
            bank,
            mine: Seat::Off(held.lost()),
            other,
            board,
        }
        .lose(Some(device))
    }
}
