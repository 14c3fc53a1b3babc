// The watch over a boot: the stage that is waited for, the ticks that are left, and the recoveries.
ghost use Rattle.std.specs.Prelude.{◌≡◌, ◌≢◌, ◌≤◌, ◌↔◌, IsTrue};
ghost use Rattle.pfr_watch.specs.declared.stage.Stage.TheVariants.{Done};
ghost use Rattle.pfr_watch.specs.Stages.{next_stage};
ghost use Rattle.pfr_watch.specs.Watching.{begun, expires, ticked, passed, expired};

use crate::Stage;
use pfr_flash::Bank;

/// The most recoveries that are counted.
const MOST_RECOVERIES: u8 = 4;

/// How far the boot of a bank's processor has come. `left` is how many ticks the stage has left, and `recoveries` how often
/// the watch has expired since a boot was done, which is 4 at most.
#[derive(Clone, Copy, Debug, PartialEq, Eq)]
pub struct Watch {
    pub stage: Stage,
    pub left: u32,
    pub recoveries: u8,
}

impl Watch {
    /// A watch over a boot that begins: at the bank's first stage, with its length and no recoveries.
    pub fn new(bank: Bank) -> Watch
        ensures { result ≡ begun bank 0 }
    {
        let stage = Stage::first(bank);
        Watch {
            stage,
            left: stage.length(),
            recoveries: 0,
        }
    }

    /// Begins again at the bank's first stage, with its length. The recoveries stay.
    pub fn restart(&mut self, bank: Bank)
        ensures { self.new ≡ begun bank self.old.recoveries }
    {
        self.stage = Stage::first(bank);
        self.left = self.stage.length();
    }

    /// Counts `n` ticks, and answers whether the watch expires by them: it does where no more than `n` are left, and never
    /// where the boot is done. Else `left` falls by `n`, but in a boot that is done nothing changes.
    pub fn tick(&mut self, n: u16) -> bool
        ensures result { result ≡ expires self.old n }
        ensures meaning { IsTrue result ↔ ((self.old.stage ≢ Done) × (self.old.left ≤ n)) }
        ensures ticked { self.new ≡ ticked self.old n }
    {
        let n = u32::from(n);
        if self.stage == Stage::Done {
            return false;
        }
        if self.left > n {
            self.left -= n;
            return false;
        }
        // the watch stays as it was, `left` too: of these ticks none is counted
        true
    }

    /// The stage was passed: goes on to the next one with its length, and answers it. A boot that is done has no
    /// recoveries; else they stay. One that was done before stays so.
    pub fn pass(&mut self) -> Stage
        ensures stage { result ≡ next_stage self.old.stage }
        ensures passed { self.new ≡ passed self.old }
    {
        let stage = self.stage.next();
        self.stage = stage;
        self.left = stage.length();
        if stage == Stage::Done {
            self.recoveries = 0;
        }
        stage
    }

    /// Counts a recovery, 4 at most, and answers how many there are. More than 4, which only a watch that was made so has,
    /// become 4. Stage and ticks stay.
    pub fn expire(&mut self) -> u8
        ensures result { result ≡ self.new.recoveries }
        ensures expired { self.new ≡ expired self.old }
    {
        self.recoveries = if self.recoveries < MOST_RECOVERIES {
            self.recoveries + 1
        } else {
            MOST_RECOVERIES
        };
        self.recoveries
    }
}
