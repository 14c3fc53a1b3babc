// A bank that isn't in work.
ghost use Rattle.std.specs.Prelude.{◌≡◌, ◌≢◌, ◌<◌, ◌≤◌, true, false, Some};
ghost use Rattle.pfr_flash.specs.Flash.{with_cut, with_fault};
ghost use Rattle.pfr_flash.specs.FlashState.{now, op_count_of, size_of};
ghost use Rattle.pfr_bank.specs.Spelling.{StillSpells};
ghost use Rattle.pfr_machine.specs.Worlds.{flash_in, bank_in, line_in, ruling_in, sits_in};
ghost use Rattle.pfr_story.specs.Plans.{Ruling, judge_smbus};
ghost use Rattle.pfr_story.specs.Run.{takes_arm, with_arm};
ghost use Rattle.pfr_story.specs.declared.line.Line.TheVariants as line;

use pfr_bank::{Held, Locked, Off, Running};
use pfr_flash::{Flash, Rigged, Tear};
use pfr_manifest::Rules;
use pfr_script::{Arm, ArmWhat};
use pfr_smbus::{SmbusCause, SmbusFrame, allowed};
use pfr_story::Line;

/// A bank that isn't in work, in one of the states that it may stand in between two events.
#[derive(Drop)]
pub enum Seat<F: Flash> {
    Off(Off<F>),
    Locked(Locked<F>),
    Running(Running<F>),
}

// Judges a frame on an SMBus by these rules.
fn judge_smbus(rules: &Rules, frame: &[u8]) -> Result<(), SmbusCause>
    ensures { result ≡ judge_smbus rules.now frame.now }
{
    let frame = SmbusFrame::read(frame)?;
    allowed(rules, &frame)
}

impl<F: Flash> Seat<F> {
    /// How the bank stands.
    pub fn line(&self) -> Line
        ensures { result ≡ line_in self.now }
    {
        match self {
            Seat::Off(_) => Line::Off,
            Seat::Locked(_) => Line::Locked,
            Seat::Running(_) => Line::Running,
        }
    }

    /// How many erases and programs the bank's device has done.
    pub fn op_count(&self) -> u32
        ensures { result ≡ op_count_of (F.device (flash_in self.now)) }
    {
        match self {
            Seat::Off(off) => off.op_count(),
            Seat::Locked(locked) => locked.op_count(),
            Seat::Running(running) => running.op_count(),
        }
    }

    /// The size of the bank's device.
    pub fn size(&self) -> u32
        ensures { result ≡ size_of (F.device (flash_in self.now)) }
    {
        match self {
            Seat::Off(off) => off.size(),
            Seat::Locked(locked) => locked.size(),
            Seat::Running(running) => running.size(),
        }
    }

    /// Holds the bank. Its device is powered up where the bank was off.
    pub fn hold(self) -> Held<F>
        ensures off { line_in self ≡ line.Off → F.device result.flash ≡ record (F.device (flash_in self)) { powered = true } }
        ensures on { line_in self ≢ line.Off → result.flash ≡ flash_in self }
        ensures bank { result.bank ≡ bank_in self }
    {
        match self {
            Seat::Off(off) => off.hold(),
            Seat::Locked(locked) => locked.hold(),
            Seat::Running(running) => running.hold(),
        }
    }

    /// Takes the power from the bank's device.
    pub fn lose(self) -> Off<F>
        ensures flash { F.device result.flash ≡ record (F.device (flash_in self)) { powered = false } }
        ensures bank { result.bank ≡ bank_in self }
    {
        match self {
            Seat::Off(off) => off.lost(),
            Seat::Locked(locked) => locked.lost(),
            Seat::Running(running) => running.lost(),
        }
    }

    /// Judges a frame on the SMBus of a bank that runs, by the rules of its manifest.
    pub fn judge_smbus(&self, frame: &[u8]) -> Result<(), SmbusCause>
        requires runs { line_in self.now ≡ line.Running }
        ensures judged { (r : Ruling) → ruling_in self.now ≡ Some r → result ≡ judge_smbus r.manifest.rules frame.now }
        ensures spells { (r : Ruling) → ruling_in self.now ≡ Some r →
            StillSpells (now (F.device (flash_in self.now))) r.manifest r.layout }
    {
        match self {
            Seat::Running(running) => {
                running.known();
                judge_smbus(&running.manifest().rules, frame)
            }
            Seat::Off(_) | Seat::Locked(_) => unreachable!(),
        }
    }

    /// Gives the device up as it stands.
    pub fn into_flash(self) -> F
        ensures { result ≡ flash_in self }
    {
        match self {
            Seat::Off(off) => off.into_flash(),
            Seat::Locked(locked) => locked.into_flash(),
            Seat::Running(running) => running.into_flash(),
        }
    }
}

impl<F: Rigged> Seat<F> {
    // Lets the nth erase or program from now on lose the power.
    fn arm_cut(&mut self, nth: u32, tear: &Tear)
        requires nth { 1 ≤ nth }
        requires arms { 0 < (F.device (flash_in self.old)).arms }
        ensures flash { F.device (flash_in self.new) ≡ with_cut (F.device (flash_in self.old)) nth tear.now }
        ensures sits { sits_in self.new ≡ sits_in self.old }
    {
        match self {
            Seat::Off(off) => off.arm_cut(nth, tear),
            Seat::Locked(locked) => locked.arm_cut(nth, tear),
            Seat::Running(running) => running.arm_cut(nth, tear),
        }
    }

    // Lets the nth erase or program from now on fail.
    fn arm_fault(&mut self, nth: u32, tear: &Tear)
        requires nth { 1 ≤ nth }
        requires arms { 0 < (F.device (flash_in self.old)).arms }
        ensures flash { F.device (flash_in self.new) ≡ with_fault (F.device (flash_in self.old)) nth tear.now }
        ensures sits { sits_in self.new ≡ sits_in self.old }
    {
        match self {
            Seat::Off(off) => off.arm_fault(nth, tear),
            Seat::Locked(locked) => locked.arm_fault(nth, tear),
            Seat::Running(running) => running.arm_fault(nth, tear),
        }
    }

    // Lets the nth read from now on fail.
    fn arm_read_fault(&mut self, nth: u32)
        requires { 1 ≤ nth }
        ensures flash { F.device (flash_in self.new) ≡ record (F.device (flash_in self.old)) { read_due = true } }
        ensures sits { sits_in self.new ≡ sits_in self.old }
    {
        match self {
            Seat::Off(off) => off.arm_read_fault(nth),
            Seat::Locked(locked) => locked.arm_read_fault(nth),
            Seat::Running(running) => running.arm_read_fault(nth),
        }
    }

    /// Arms a failure of the bank's device, with this tear where it is a cut or a fault.
    pub fn arm(&mut self, arm: &Arm, tear: &Tear)
        requires some { 1 ≤ arm.now.nth }
        requires arms { takes_arm arm.now.what ≤ (F.device (flash_in self.old)).arms }
        ensures flash { F.device (flash_in self.new) ≡ with_arm arm.now.what arm.now.nth tear.now (F.device (flash_in self.old)) }
        ensures sits { sits_in self.new ≡ sits_in self.old }
    {
        match arm.what {
            ArmWhat::Cut => self.arm_cut(arm.nth, tear),
            ArmWhat::Fault => self.arm_fault(arm.nth, tear),
            ArmWhat::ReadFault => self.arm_read_fault(arm.nth),
        }
    }
}
