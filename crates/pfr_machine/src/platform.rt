// The platform.
ghost use Rattle.std.specs.Prelude.{◌≡◌, ◌≢◌, ◌+◌, ◌<◌, ◌≤◌, false, [], OnOk, OnErr};
ghost use Rattle.pfr_auth.specs.Trusted.{IsTrusted};
ghost use Rattle.pfr_flash.specs.FlashState.{now, size_of};
ghost use Rattle.pfr_flash.specs.Layout.{IsBankSize};
ghost use Rattle.pfr_flash.specs.declared.names.Bank.{Bank};
ghost use Rattle.pfr_report.specs.Texts.{AllText};
ghost use Rattle.pfr_script.specs.Slots.{IsKnownSlot};
ghost use Rattle.pfr_story.specs.Course.{Calm};
ghost use Rattle.pfr_story.specs.EventPromises.{EventPromises};
ghost use Rattle.pfr_story.specs.Guards.{first_guards};
ghost use Rattle.pfr_story.specs.Keeping.{HasTrustedSpans};
ghost use Rattle.pfr_story.specs.Promises.{LostIsDark, CallsNone, HasPower, AreOff, Runs};
ghost use Rattle.pfr_story.specs.Run.{armed, takes_arm};
ghost use Rattle.pfr_story.specs.Spans.{ReleasedSpans};
ghost use Rattle.pfr_story.specs.Standing.{standing_of, standing_by};
ghost use Rattle.pfr_story.specs.Story.{device_of};
ghost use Rattle.pfr_story.specs.Turn.{Turn, begun, course, is_idle};
ghost use Rattle.pfr_story.specs.World.{AreDevices, IsDark, NoneLost, NoneRose, added, state_at, story_of};
ghost use Rattle.pfr_story.specs.declared.line.Line.TheVariants as line;
ghost use Rattle.pfr_machine.specs.Inside.{HasSizes};

use crate::board::Board;
use crate::inner::Inner;
use crate::stage::{Fresh, Stage};
use pfr_chain::Engine;
use pfr_flash::{Bank, Flash, NoMemory, Rigged, Tear};
use pfr_report::Notes;
use pfr_script::{Arm, Event};
use pfr_story::{Line, Watches};
use std::alloc::Global;
use std::marker::Model;

/// The banks' devices and the store, the engine that they are judged by, and the notes of what was done.
#[derive(Drop)]
pub struct Platform<F: Flash, E: Engine + Drop> {
    // never away between two calls
    stage: Stage<F>,
    engine: E,
}

/// What a platform leaves.
#[derive(Drop)]
pub struct Parts<F: Flash, E: Engine + Drop> {
    pub bmc: F,
    pub pch: F,
    pub nv: F,
    pub notes: Notes,
    pub engine: E,
}

impl<F: Flash, E: Engine + Drop> Model for Platform<F, E> {
    ghost use Rattle.pfr_machine.specs.Worlds.{PlatformState};
    ghost use Rattle.pfr_machine.specs.Stages.{IsThere, world_in};

    ghost Value = { PlatformState E };

    ghost view = { λ p. record { world = world_in p.stage; engine = p.engine } };

    ghost invariant = { λ p. IsThere (E.accepts p.engine) p.stage };
}

impl<F: Flash, E: Engine + Drop> Platform<F, E> {
    ghost use Rattle.pfr_machine.specs.Worlds.{SameButRoom};

    /// A platform whose banks are off, with no notes. Banks have whole blocks of 64 KiB, the store 32 KiB. This
    /// takes no memory.
    pub fn new(alloc: Global, bmc: F, pch: F, nv: F, engine: E) -> Platform<F, E>
        requires bmc_size { IsBankSize (size_of (F.device bmc)) }
        requires pch_size { IsBankSize (size_of (F.device pch)) }
        requires nv_size { size_of (F.device nv) ≡ 32768 }
        ensures { result ≡ record {
          world = record {
            bmc = F.device bmc;
            pch = F.device pch;
            nv = F.device nv;
            item = 0;
            notes = record { list = []; spare = 0 };
            guards = first_guards;
          };
          engine = engine;
        } }
    {
        let board = Board {
            nv,
            notes: Notes::new(alloc),
            item: 0,
            watches: Watches::new(),
        };
        let fresh = Fresh {
            bmc,
            pch,
            board,
            alloc,
        };
        Platform {
            stage: Stage::Fresh(fresh),
            engine,
        }
    }

    /// Does one event. After want of memory nothing was done.
    pub fn step(&mut self, event: &Event) -> Result<(), NoMemory>
        requires items { self.old.world.item < 67108863 }
        // What is done is what the contents call for, unless a call of a device fails.
        ensures turn { OnOk result (Turn (E.accepts self.old.engine) event.now self.old.world self.new.world) }
        ensures calm { OnOk result (NoneLost self.old.world self.new.world → NoneRose self.old.world self.new.world →
            Calm (course (E.accepts self.old.engine) event.now (story_of self.old.world)) (begun event.now self.old.world) self.new.world) }
        ensures engine { self.new.engine ≡ self.old.engine }
        ensures err { OnErr result (SameButRoom self.old self.new) }

        // All that an event promises.
        ensures promises { OnOk result (EventPromises (E.accepts self.old.engine) event.now self.old.world self.new.world) }

        // So far each bank was trusted throughout each span in which it stood released, and in none of them a byte was written that
        // its trust rests on, or one of its recovery area.
        ensures spans { OnOk result ((which : Bank) → ReleasedSpans (E.accepts self.old.engine) which (story_of self.new.world)) }

        // Once a loss of power is noted no device has power, and where the banks aren't off each has; an event that isn't taken calls none.
        ensures dark { OnOk result (LostIsDark self.old.world self.new.world) }
        ensures on { OnOk result (HasPower self.new.world) }
        ensures untouched { OnOk result (CallsNone event.now self.old.world self.new.world) }

        // No note's cause is a failed device, so each has a text.
        ensures texts { AllText self.new.world.notes.list }

        // All that the devices hold at the end are bytes.
        ensures bytes { AreDevices self.new.world }
    {
        self.known();
        let done = self.work(event);
        self.known();
        done
    }

    // What holds of every platform. This does nothing.
    fn known(&self)
        ensures bytes { AreDevices self.now.world }
        ensures texts { AllText self.now.world.notes.list }
        ensures sizes { HasSizes self.now.world }
        ensures on { HasPower self.now.world }
        ensures spans { (which : Bank) → HasTrustedSpans (E.accepts self.now.engine) which (story_of self.now.world) }
        ensures trusted { (which : Bank) → Runs which self.now.world →
            IsTrusted (now (state_at (device_of which) self.now.world)) (now self.now.world.nv) which (E.accepts self.now.engine) }
    {
        self.stage.known();
    }

    // Does one event.
    fn work(&mut self, event: &Event) -> Result<(), NoMemory>
        requires items { self.old.world.item < 67108863 }
        ensures turn { OnOk result (Turn (E.accepts self.old.engine) event.now self.old.world self.new.world) }
        ensures engine { self.new.engine ≡ self.old.engine }
        ensures spelled { OnOk result (¬ AreOff self.old.world → IsKnownSlot event.now) }
        ensures untouched { OnOk result (CallsNone event.now self.old.world self.new.world) }
        ensures dark { OnOk result
            (is_idle event.now (story_of self.old.world) ≡ false → added self.old.world self.new.world ≢ [] → AreOff self.new.world → IsDark self.new.world) }
        ensures err { OnErr result (SameButRoom self.old self.new) }
    {
        self.stage.begin()?;
        self.stage.turn(event, &self.engine);
        self.stage.known();
        Ok(())
    }

    /// The notes so far, oldest first.
    pub fn notes(&self) -> &Notes
        ensures { result.now ≡ self.now.world.notes }
    {
        match &self.stage {
            Stage::Fresh(fresh) => &fresh.board.notes,
            Stage::Ready(inner) => &inner.board.notes,
            Stage::Away => unreachable!(),
        }
    }

    /// How the bank stands, by the last of its notes. While it runs it is trusted.
    pub fn line(&self, bank: Bank) -> Line
        ensures stands { standing_by result ≡ standing_of bank self.now.world.notes.list }
        ensures trusted { result ≡ line.Running →
            IsTrusted (now (state_at (device_of bank) self.now.world)) (now self.now.world.nv) bank (E.accepts self.now.engine) }
    {
        match &self.stage {
            Stage::Fresh(fresh) => fresh.line(bank),
            Stage::Ready(inner) => inner.line(bank),
            Stage::Away => unreachable!(),
        }
    }

    /// Takes the platform apart. Its parts are as they stood.
    pub fn into_parts(self) -> Parts<F, E>
        ensures bmc { F.device result.bmc ≡ self.world.bmc }
        ensures pch { F.device result.pch ≡ self.world.pch }
        ensures nv { F.device result.nv ≡ self.world.nv }
        ensures notes { result.notes ≡ self.world.notes }
        ensures engine { result.engine ≡ self.engine }
    {
        let Platform { stage, engine } = self;
        match stage {
            Stage::Fresh(
                Fresh {
                    bmc,
                    pch,
                    board,
                    ..
                },
            ) => Parts {
                bmc,
                pch,
                nv: board.nv,
                notes: board.notes,
                engine,
            },
            Stage::Ready(Inner { bmc, pch, board }) => Parts {
                bmc: bmc.into_flash(),
                pch: pch.into_flash(),
                nv: board.nv,
                notes: board.notes,
                engine,
            },
            Stage::Away => unreachable!(),
        }
    }
}

impl<F: Rigged, E: Engine + Drop> Platform<F, E> {
    /// Arms a failure of a device, with this tear where it is a cut or a fault. It is an item of its own.
    pub fn arm(&mut self, arm: &Arm, tear: &Tear)
        requires some { 1 ≤ arm.now.nth }
        requires arms { takes_arm arm.now.what ≤ (state_at arm.now.device self.old.world).arms }
        requires items { self.old.world.item < 67108863 }
        ensures { self.new ≡ record self.old { world = armed arm.now tear.now self.old.world } }
    {
        match &mut self.stage {
            Stage::Fresh(fresh) => fresh.arm(arm, tear),
            Stage::Ready(inner) => inner.arm(arm, tear),
            Stage::Away => unreachable!(),
        }
    }
}
