// Frames on the buses of a bank that runs.
ghost use Rattle.std.specs.Prelude.{◌≡◌, ◌<◌, ◌≤◌, [], ◌∷◌};
ghost use Rattle.pfr_auth.specs.Trusted.{IsTrusted};
ghost use Rattle.pfr_engine.specs.Acceptance.{Acceptance};
ghost use Rattle.pfr_filter.specs.Asking.{IsSafe};
ghost use Rattle.pfr_filter.specs.Frames.{verdict_on};
ghost use Rattle.pfr_filter.specs.declared.verdict.BusOp.{BusOp};
ghost use Rattle.pfr_filter.specs.declared.verdict.Verdict.TheVariants.{Pass};
ghost use Rattle.pfr_flash.specs.FlashState.{now, size_of};
ghost use Rattle.pfr_flash.specs.declared.names.Bank.{Bank};
ghost use Rattle.pfr_flash.specs.declared.names.Bank.TheVariants.{Bmc};
ghost use Rattle.pfr_report.specs.Texts.{HasText};
ghost use Rattle.pfr_story.specs.Course.{Follows, Steps as StepsAlong};
ghost use Rattle.pfr_story.specs.Plans.{smbus_judged, smbus_note};
ghost use Rattle.pfr_story.specs.Promises.{Runs};
ghost use Rattle.pfr_story.specs.Standing.{Off, Standing, standing_after, standing_of};
ghost use Rattle.pfr_story.specs.Story.{Says, device_of};
ghost use Rattle.pfr_story.specs.Turn.{smbus_course, spi_course};
ghost use Rattle.pfr_story.specs.World.{IsDark, state_at, story_of};
ghost use Rattle.pfr_machine.specs.Buses.{IsBus, bus_sides, bus_world, verdict_stretch};
ghost use Rattle.pfr_machine.specs.Inside.{IsWhole};
ghost use Rattle.pfr_machine.specs.Ready.{LeavesWhole};
ghost use Rattle.pfr_machine.specs.Worlds.{pushed};

use crate::board::Board;
use crate::desk::device_of;
use crate::inner::Inner;
use crate::seat::Seat;
use crate::sides::Sides;
use pfr_bank::Running;
use pfr_filter::{BusOp, Judged, Verdict};
use pfr_flash::{Bank, Flash, FlashFail};
use pfr_manifest::Steps;
use pfr_report::{LockWhy, What};
use pfr_script::Frame;
use pfr_smbus::SmbusCause;
use std::marker::Brand;
use std::sync::ledger::{Blank, Ledger};

/// A bank that runs, to whose bus a frame came, the other one as it stands, and what they share.
#[derive(Drop)]
pub struct Bus<F: Flash> {
    pub bank: Bank,
    pub running: Running<F>,
    pub other: Seat<F>,
    pub board: Board<F>,
}

// Judges a frame on the SPI bus, and counts what is looked at by this ledger.
fn judge_counted<F: Flash, L: Ledger>(running: &Running<F>, frame: &Frame, blank: Blank) -> Judged
    requires name { blank.name ≡ L.name }
    requires parts { blank.parts ≡ L.parts }
    requires some { 0 < blank.parts }
    ensures exact { result ≡ verdict_on frame.now running.now.manifest running.now.layout
        (size_of (F.device running.now.flash)) running.now.latch }
    ensures safe { (op : BusOp) → result ≡ Pass op → IsSafe running.now.manifest running.now.layout op }
{
    let mut steps = Steps::<L>::new(blank);
    running.judge(frame.as_slice(), &mut steps)
}

// Judges a frame on the SPI bus.
fn judge<F: Flash>(running: &Running<F>, frame: &Frame) -> Judged
    ensures exact { result ≡ verdict_on frame.now running.now.manifest running.now.layout
        (size_of (F.device running.now.flash)) running.now.latch }
    ensures safe { (op : BusOp) → result ≡ Pass op → IsSafe running.now.manifest running.now.layout op }
{
    judge_counted::<F, Brand>(running, frame, Blank::new(1))
}

impl<F: Flash> Bus<F> {
    // The seats of both banks.
    fn sides(self) -> Sides<F>
        ensures { result ≡ bus_sides self }
    {
        let Bus {
            bank,
            running,
            other,
            board,
        } = self;
        Sides {
            bank,
            mine: Seat::Running(running),
            other,
            board,
        }
    }

    // Notes what came of a frame, by which no bank stands otherwise.
    fn note(mut self, what: What) -> Inner<F>
        requires room { 1 ≤ self.board.notes.spare }
        requires text { HasText what }
        requires still { (which : Bank) (s : Standing) → standing_after which what s ≡ s }
        requires seated { IsBus (λ f. F.device f) self }
        ensures { result ≡ bus_world (λ f. F.device f) (record self { board = pushed what self.board }) }
    {
        self.board.push(what);
        self.sides().inner()
    }

    // Hands a frame that passed to the flash. At a fault the bank is held and locked.
    fn pass(mut self, judged: &Judged, op: &BusOp) -> Inner<F>
        requires room { 3 ≤ self.board.notes.spare }
        requires seated { IsBus (λ f. F.device f) self }
        requires whole { IsWhole (bus_world (λ f. F.device f) self) }
        requires passed { judged.now ≡ Pass op.now }
        requires safe { IsSafe self.running.manifest self.running.layout op.now }
        ensures steps { StepsAlong (verdict_stretch self.bank judged.now ∷ []) (bus_world (λ f. F.device f) self) result }
        ensures leaves { LeavesWhole 3 (bus_world (λ f. F.device f) self) result }
        ensures dark { standing_of Bmc result.notes.list ≡ Off → IsDark result }
    {
        let bank = self.bank;
        match self.running.bus(judged) {
            Ok(()) => self.note(What::BusPassed { bank, op: *op }),
            Err(FlashFail::Fault) => self.sides().inner().hold(bank).lock(LockWhy::FlashFault),
            Err(FlashFail::Lost) => self.sides().lose(Some(device_of(bank))),
        }
    }

    // Judges a frame, and hands it to the flash where it passes.
    fn filter(self, frame: &Frame) -> Inner<F>
        requires room { 3 ≤ self.board.notes.spare }
        requires seated { IsBus (λ f. F.device f) self }
        requires whole { IsWhole (bus_world (λ f. F.device f) self) }
        ensures steps { let verdict = verdict_on frame.now self.running.manifest self.running.layout
            (size_of (F.device self.running.flash)) self.running.latch in
            StepsAlong (verdict_stretch self.bank verdict ∷ []) (bus_world (λ f. F.device f) self) result }
        ensures leaves { LeavesWhole 3 (bus_world (λ f. F.device f) self) result }
        ensures dark { standing_of Bmc result.notes.list ≡ Off → IsDark result }
    {
        let judged = judge(&self.running, frame);
        match judged.verdict() {
            Verdict::Pass(op) => self.pass(&judged, op),
            Verdict::Block(why) => {
                let bank = self.bank;
                self.note(What::BusBlocked { bank, why: *why })
            }
        }
    }
}

// What is noted of a frame on the SMBus.
fn smbus_note(bank: Bank, judged: Result<(), SmbusCause>) -> What
    ensures { result ≡ smbus_note bank judged }
{
    match judged {
        Ok(()) => What::SmbusPassed { bank },
        Err(why) => What::SmbusBlocked { bank, why },
    }
}

impl<F: Flash> Inner<F> {
    /// A frame came to the SPI bus of a bank that runs.
    pub fn spi(self, bank: Bank, frame: &Frame) -> Inner<F>
        requires room { 64 ≤ self.notes.spare }
        requires whole { IsWhole self }
        requires runs { Runs bank self }
        ensures follows { (accepts : Acceptance) → IsTrusted (now (state_at (device_of bank) self)) (now self.nv) bank accepts →
            Follows (spi_course accepts bank frame.now) self result }
        ensures leaves { LeavesWhole 64 self result }
        ensures dark { standing_of Bmc result.notes.list ≡ Off → IsDark result }
    {
        let Sides {
            bank,
            mine,
            other,
            board,
        } = self.sides(bank);
        match mine {
            Seat::Running(running) => {
                running.known();
                let bus = Bus {
                    bank,
                    running,
                    other,
                    board,
                };
                bus.filter(frame)
            }
            Seat::Off(_) | Seat::Locked(_) => unreachable!(),
        }
    }

    // Judges a frame on the SMBus of a bank that runs.
    fn judge_smbus(&self, bank: Bank, frame: &Frame) -> Result<(), SmbusCause>
        requires { Runs bank self.now }
        ensures { (accepts : Acceptance) → IsTrusted (now (state_at (device_of bank) self.now)) (now self.now.nv) bank accepts →
            smbus_judged accepts bank frame.now (story_of self.now) ≡ Says (λ _. smbus_note bank result) ∷ [] }
    {
        match bank {
            Bank::Bmc => self.bmc.judge_smbus(frame.as_slice()),
            Bank::Pch => self.pch.judge_smbus(frame.as_slice()),
        }
    }

    /// A frame came to the SMBus of a bank that runs. No device is called.
    pub fn smbus(mut self, bank: Bank, frame: &Frame) -> Inner<F>
        requires room { 64 ≤ self.notes.spare }
        requires whole { IsWhole self }
        requires runs { Runs bank self }
        ensures follows { (accepts : Acceptance) → IsTrusted (now (state_at (device_of bank) self)) (now self.nv) bank accepts →
            Follows (smbus_course accepts bank frame.now (story_of self)) self result }
        ensures leaves { LeavesWhole 64 self result }
        ensures dark { standing_of Bmc result.notes.list ≡ Off → IsDark result }
    {
        let judged = self.judge_smbus(bank, frame);
        self.note(smbus_note(bank, judged));
        self
    }
}
