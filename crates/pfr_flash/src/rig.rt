// What is armed in a flash in memory, and what was counted.
ghost use Rattle.std.specs.Prelude.{◌≡◌, ◌≢◌, ℕ, ◌+◌, ◌^◌, ◌<◌, ◌≤◌, [], List, IfSome, slice_index_or};
ghost use Rattle.std.specs.Option.{option_map};
ghost use Rattle.pfr_flash.specs.FlashState.{due_at, ending_with, answer_at, raised_by};
ghost use Rattle.pfr_flash.specs.Rig.{IsKnownArm, IsKnownOutcome, IsFree, arm_after, due_of, rig_after, ending_at};

use crate::flash::FlashFail;

/// An armed cut or fault: the number of its operation, and the place of its tear.
#[derive(Clone, Copy)]
pub struct Arm {
    pub number: u64,
    pub tear: usize,
}

/// How an erase or a program ends.
#[derive(Clone, Copy)]
pub enum Outcome {
    Off,
    Full,
    Cut(usize),
    Broken(usize),
    Done,
}

#[derive(Drop)]
pub struct Rig {
    pub powered: bool,
    pub faults: u64,
    pub losses: u32,
    pub cut: Option<Arm>,
    pub fault: Option<Arm>,
}

/// A count that stays at its end
pub fn raised(count: u64, more: u64) -> u64
    ensures { result ≡ raised_by count more }
{
    count.saturating_add(more)
}

// what stays armed once the operation of this number is done
fn left(arm: Option<Arm>, number: u64) -> Option<Arm>
    ensures { result ≡ arm_after number arm }
{
    match arm {
        Some(arm) if arm.number == number => None,
        _ => arm,
    }
}

// the place of the tear, where the operation of this number is the armed one
fn tear_due(arm: Option<Arm>, number: u64) -> Option<usize>
    ensures due { (tears : List (List ℕ)) → due_at number (due_of tears arm) ≡ option_map (λ tear. slice_index_or tears tear []) result }
    ensures known { (count : ℕ) → IsKnownArm count arm → IfSome result (λ tear. tear < count) }
{
    match arm {
        Some(arm) => {
            if arm.number == number {
                Some(arm.tear)
            } else {
                None
            }
        }
        None => None,
    }
}

impl Rig {
    /// How the next erase or program ends, where so many operations are done and there is room for so many.
    pub fn outcome(&self, count: u32, room: u32) -> Outcome
        ensures known { (n : ℕ) → IsKnownArm n self.now.cut → IsKnownArm n self.now.fault → IsKnownOutcome n result }
        ensures room { IsFree result → count ≢ room }
        ensures ending { (tears : List (List ℕ)) → ending_at tears result
            ≡ ending_with self.now.powered count room (due_of tears self.now.cut) (due_of tears self.now.fault) }
    {
        if !self.powered {
            return Outcome::Off;
        }
        if count == room {
            return Outcome::Full;
        }
        let number = count as u64 + 1;
        if let Some(tear) = tear_due(self.cut, number) {
            return Outcome::Cut(tear);
        }
        match tear_due(self.fault, number) {
            Some(tear) => Outcome::Broken(tear),
            None => Outcome::Done,
        }
    }

    /// Counts and disarms after an erase or a program of this number that ended so.
    pub fn finish(&mut self, number: u64, outcome: Outcome) -> Result<(), FlashFail>
        requires { self.old.losses < 1000 }
        ensures rig { self.new ≡ rig_after number self.old outcome }
        ensures answer { result ≡ answer_at (ending_at [] outcome) }
    {
        match outcome {
            Outcome::Off => Err(FlashFail::Lost),
            Outcome::Full => {
                self.faults = raised(self.faults, 1);
                Err(FlashFail::Fault)
            }
            Outcome::Cut(_) => {
                self.powered = false;
                self.losses += 1;
                self.cut = None;
                self.fault = left(self.fault, number);
                Err(FlashFail::Lost)
            }
            Outcome::Broken(_) => {
                self.faults = raised(self.faults, 1);
                self.fault = None;
                Err(FlashFail::Fault)
            }
            Outcome::Done => Ok(()),
        }
    }
}
