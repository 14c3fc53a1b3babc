// The fuses are read at a power-on, and migrated.
ghost use Rattle.std.specs.Prelude.{◌≡◌, true, Some, Ok, IfOk, OnOk};
ghost use Rattle.pfr_flash.specs.FlashState.{now, size_of};
ghost use Rattle.pfr_flash.specs.Plan.{Follows};
ghost use Rattle.pfr_flash.specs.Reading.{EndsAt, failed_by};
ghost use Rattle.pfr_flash.specs.declared.names.Device.TheVariants.{Nv};
ghost use Rattle.pfr_fuses.specs.FusesOf.{fuses_of};
ghost use Rattle.pfr_story.specs.Goes.{Goes};
ghost use Rattle.pfr_story.specs.Plans.{asks_store, migrated, migration_by, migration_in, store};
ghost use Rattle.pfr_story.specs.Story.{called};
ghost use Rattle.pfr_machine.specs.Inside.{IsMigrated, KeepsLaid};
ghost use Rattle.pfr_machine.specs.Ready.{StaysSeated};
ghost use Rattle.pfr_machine.specs.Worlds.{with_state};

use crate::inner::Inner;
use crate::judging::read_fuses;
use pfr_flash::{Device, Flash, FlashFail};
use pfr_fuses::{FuseFail, Fuses};
use pfr_story::Stop;

// Migrates these fuses of a store where they are of profile 1.
fn migrate_fuses<F: Flash>(nv: &mut F, fuses: &mut Fuses) -> Result<(), FlashFail>
    requires size { size_of (F.device nv.old) ≡ 32768 }
    requires found { fuses_of (now (F.device nv.old)) ≡ Ok fuses.old }
    ensures follows { Follows (migration_by fuses.old.profile fuses.old) (F.device nv.old) (F.device nv.new) result }
    ensures laid { KeepsLaid (now (F.device nv.old)) (now (F.device nv.new)) }
{
    if fuses.profile() == 1 {
        fuses.migrate(nv)
    } else {
        Ok(())
    }
}

// Migrates the fuses of a store where they are of profile 1.
fn migrate<F: Flash>(nv: &mut F, found: Result<Fuses, FuseFail>) -> Result<(), FlashFail>
    requires size { size_of (F.device nv.old) ≡ 32768 }
    requires found { found ≡ fuses_of (now (F.device nv.old)) }
    ensures follows { Follows (migration_in found) (F.device nv.old) (F.device nv.new) result }
    ensures laid { KeepsLaid (now (F.device nv.old)) (now (F.device nv.new)) }
{
    match found {
        Ok(mut fuses) => migrate_fuses(nv, &mut fuses),
        Err(_) => Ok(()),
    }
}

impl<F: Flash> Inner<F> {
    // Reads the fuses from the store.
    fn read_store(&mut self) -> Result<Result<Fuses, FuseFail>, FlashFail>
        ensures same { self.new ≡ with_state Nv self.new.nv self.old }
        ensures found { IfOk result (λ found. found ≡ fuses_of (now self.old.nv)) }
        ensures ends { EndsAt (failed_by (λ fail. Some fail) result) self.old.nv self.new.nv }
    {
        read_fuses(&mut self.board.nv)
    }

    // What the store provisions the platform with, or why it doesn't.
    fn load(&mut self) -> Result<Result<Fuses, FuseFail>, Stop>
        requires on { self.old.nv.powered ≡ true }
        ensures goes { Goes asks_store self.old self.new result }
        ensures found { IfOk result (λ found. found ≡ fuses_of (now self.new.nv)) }
        ensures stays { StaysSeated 0 self.old self.new result }
    {
        match self.read_store() {
            Ok(found) => Ok(found),
            Err(fail) => Err(Stop {
                device: Device::Nv,
                fail,
            }),
        }
    }

    // Migrates the fuses in the store where they are of profile 1.
    fn migrate_store(&mut self, found: Result<Fuses, FuseFail>) -> Result<(), FlashFail>
        requires found { found ≡ fuses_of (now self.old.nv) }
        ensures same { self.new ≡ with_state Nv self.new.nv self.old }
        ensures follows { Follows (migration_in found) self.old.nv self.new.nv result }
    {
        migrate(&mut self.board.nv, found)
    }

    // Migrates the fuses where they are of profile 1.
    fn migrate(&mut self, found: Result<Fuses, FuseFail>) -> Result<(), Stop>
        requires on { self.old.nv.powered ≡ true }
        requires found { found ≡ fuses_of (now self.old.nv) }
        ensures goes { Goes (λ story. called Nv (migration_in (fuses_of (store story)))) self.old self.new result }
        ensures stays { StaysSeated 0 self.old self.new result }
    {
        match self.migrate_store(found) {
            Ok(()) => Ok(()),
            Err(fail) => Err(Stop {
                device: Device::Nv,
                fail,
            }),
        }
    }

    /// Reads the fuses, and migrates them where they are of profile 1.
    pub fn prepare(&mut self) -> Result<(), Stop>
        requires on { self.old.nv.powered ≡ true }
        ensures goes { Goes migrated self.old self.new result }
        ensures settled { OnOk result (IsMigrated (now self.new.nv)) }
        ensures stays { StaysSeated 0 self.old self.new result }
    {
        self.known();
        let found = self.load()?;
        self.migrate(found)
    }
}
