// Both banks' seats, as one of the banks sees them.
ghost use Rattle.std.specs.Prelude.{◌≡◌, ◌≤◌};
ghost use Rattle.pfr_report.specs.declared.note.What.TheVariants.{Lost};
ghost use Rattle.pfr_story.specs.World.{counts_in};
ghost use Rattle.pfr_machine.specs.Inside.{AreOwned, AreSides, darkened};
ghost use Rattle.pfr_machine.specs.Worlds.{counts_by, sides_world, sits_in, with_note};

use crate::board::Board;
use crate::inner::Inner;
use crate::seat::Seat;
use pfr_flash::{Bank, Counts, Device, Flash};
use pfr_report::What;

/// The seats of a bank and of the other one, and what they share.
#[derive(Drop)]
pub struct Sides<F: Flash> {
    pub bank: Bank,
    pub mine: Seat<F>,
    pub other: Seat<F>,
    pub board: Board<F>,
}

/// How many operations a bank's device, the other one's and the store have done, as counts.
pub fn counts_by(bank: Bank, mine: u32, other: u32, nv: u32) -> Counts
    ensures { result ≡ counts_by bank mine other nv }
{
    match bank {
        Bank::Bmc => Counts {
            bmc: mine,
            pch: other,
            nv,
        },
        Bank::Pch => Counts {
            bmc: other,
            pch: mine,
            nv,
        },
    }
}

impl<F: Flash> Inner<F> {
    /// The seats as this bank sees them.
    pub fn sides(self, bank: Bank) -> Sides<F>
        ensures bank { result.bank ≡ bank }
        ensures is { sides_world (λ f. F.device f) result ≡ self }
        ensures seated { AreSides (λ f. F.device f) result }
    {
        let Inner { bmc, pch, board } = self;
        match bank {
            Bank::Bmc => Sides {
                bank,
                mine: bmc,
                other: pch,
                board,
            },
            Bank::Pch => Sides {
                bank,
                mine: pch,
                other: bmc,
                board,
            },
        }
    }
}

impl<F: Flash> Sides<F> {
    /// The platform of these seats.
    pub fn inner(self) -> Inner<F>
        requires seated { AreSides (λ f. F.device f) self }
        ensures { result ≡ sides_world (λ f. F.device f) self }
    {
        let Sides {
            bank,
            mine,
            other,
            board,
        } = self;
        match bank {
            Bank::Bmc => Inner {
                bmc: mine,
                pch: other,
                board,
            },
            Bank::Pch => Inner {
                bmc: other,
                pch: mine,
                board,
            },
        }
    }

    // How many operations each device has done.
    fn counts(&self) -> Counts
        ensures { result ≡ counts_in (sides_world (λ f. F.device f) self.now) }
    {
        let (mine, other) = (self.mine.op_count(), self.other.op_count());
        counts_by(self.bank, mine, other, self.board.nv.op_count())
    }

    /// Notes that the power went, with the device that lost it if one did, and takes it from every device.
    pub fn lose(self, device: Option<Device>) -> Inner<F>
        requires room { 1 ≤ self.board.notes.spare }
        requires owned { AreOwned self.bank (sits_in self.mine) (sits_in self.other) (sides_world (λ f. F.device f) self) }
        ensures { let old = sides_world (λ f. F.device f) self in
            result ≡ with_note (Lost device (counts_in old)) (darkened old) }
    {
        let counts = self.counts();
        let Sides {
            bank,
            mine,
            other,
            mut board,
        } = self;
        board.push(What::Lost { device, counts });
        board.nv.power_down();
        Sides {
            bank,
            mine: Seat::Off(mine.lose()),
            other: Seat::Off(other.lose()),
            board,
        }
        .inner()
    }
}
