// What watches over the boots of the banks' processors.
ghost use Rattle.std.specs.Prelude.{◌≡◌, ◌&&◌, if◌then◌else◌};
ghost use Rattle.pfr_watch.specs.Watching.{expires, ticked};
ghost use Rattle.pfr_story.specs.Guards.{first_watches, watch_after, watches_after};

use pfr_flash::Bank;
use pfr_report::What;
use pfr_watch::Watch;

/// The watches over the boots of both banks' processors.
#[derive(Clone, Copy, Debug, PartialEq, Eq)]
pub struct Watches {
    pub bmc: Watch,
    pub pch: Watch,
}

// What a note does to the watch of this bank.
fn note(watch: &mut Watch, which: Bank, what: &What)
    ensures { watch.new ≡ watch_after which what.now watch.old }
{
    match what {
        What::Released { bank, .. } => {
            if *bank == which {
                watch.restart(which);
            }
        }
        What::Passed { bank, .. } | What::Booted { bank } => {
            if *bank == which {
                watch.pass();
            }
        }
        What::Expired { bank, level } => {
            if *bank == which {
                watch.recoveries = *level;
            }
        }
        What::Power => watch.recoveries = 0,
        _ => {}
    }
}

// Ticks of the watch of a bank, which are counted where its processor runs.
fn tick(watch: &mut Watch, n: u16, runs: bool) -> bool
    ensures due { result ≡ (runs && expires watch.old n) }
    ensures ticked { watch.new ≡ (if runs then ticked watch.old n else watch.old) }
{
    runs && watch.tick(n)
}

impl Watches {
    /// Boots that are to begin, with no recoveries.
    pub fn new() -> Watches
        ensures { result ≡ first_watches }
    {
        Watches {
            bmc: Watch::new(Bank::Bmc),
            pch: Watch::new(Bank::Pch),
        }
    }

    /// What a note does to the watches: a release begins the boot's watch again, a stage that is passed takes it to the next one,
    /// an expiry tells how many recoveries there are, and a power-on forgets them.
    pub fn note(&mut self, what: &What)
        ensures { self.new ≡ watches_after what.now self.old }
    {
        note(&mut self.bmc, Bank::Bmc, what);
        note(&mut self.pch, Bank::Pch, what);
    }

    /// Counts `n` ticks of the watches of the banks whose processors run, and answers which of them expire by that: the
    /// BMC's, and the PCH's.
    pub fn tick(&mut self, n: u16, bmc_runs: bool, pch_runs: bool) -> (bool, bool)
        ensures bmc_due { result.0 ≡ (bmc_runs && expires self.old.bmc n) }
        ensures pch_due { result.1 ≡ (pch_runs && expires self.old.pch n) }
        ensures bmc { self.new.bmc ≡ (if bmc_runs then ticked self.old.bmc n else self.old.bmc) }
        ensures pch { self.new.pch ≡ (if pch_runs then ticked self.old.pch n else self.old.pch) }
    {
        (
            tick(&mut self.bmc, n, bmc_runs),
            tick(&mut self.pch, n, pch_runs),
        )
    }
}
