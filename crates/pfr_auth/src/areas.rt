// The areas of a bank that hold capsules.
ghost use Rattle.std.specs.Prelude.{◌≡◌, ◌≤◌, ℕ, List, All, IfOk, Ok};
ghost use Rattle.pfr_flash.specs.FlashState.{now, size_of};
ghost use Rattle.pfr_flash.specs.Layout.{IsBankSize, IsValidLayout};
ghost use Rattle.pfr_flash.specs.Reading.{EndsAt, failed_by};
ghost use Rattle.pfr_fuses.specs.RootSlot.{layout_of};
ghost use Rattle.pfr_manifest.specs.Regions.{IsRegion};
ghost use Rattle.pfr_flash.specs.Answer.{Answers};
ghost use Rattle.pfr_capsule.specs.Answer.{capsule_failure};
ghost use Rattle.pfr_capsule.specs.Good.{IsGood, StandForBank};
ghost use Rattle.pfr_capsule.specs.Lying.{LiesAt};
ghost use Rattle.pfr_capsule.specs.Pages.{HasIndex};
ghost use Rattle.pfr_auth.specs.Areas.{place_of, judge_area};

use pfr_capsule::{Capsule, CapsuleFail};
use pfr_chain::Engine;
use pfr_flash::{Bank, Flash, Layout};
use pfr_fuses::Fuses;

/// An area of a bank that holds a capsule.
#[derive(Clone, Copy, Debug, PartialEq, Eq)]
pub enum Area {
    /// What the bank is restored from.
    Recovery,
    /// What the bank is updated from.
    Staging,
}

impl Area {
    // where it begins
    fn place(self, layout: &Layout) -> u32
        ensures { result ≡ place_of layout.now self }
    {
        match self {
            Area::Recovery => layout.recovery_at,
            Area::Staging => layout.staging_at,
        }
    }
}

/// Judges the capsule that stands at the beginning of an area of a bank.
///
/// The layout is the bank's of the provision that `fuses` were read with.
pub fn capsule_at<F: Flash, E: Engine>(
    flash: &mut F,
    area: Area,
    bank: Bank,
    layout: &Layout,
    fuses: &Fuses,
    engine: &E,
) -> Result<Capsule, CapsuleFail>
    requires size { IsBankSize (size_of (F.device flash.old)) }
    requires layout { layout.now ≡ layout_of fuses.now.provision bank }
    requires valid { IsValidLayout layout.now (size_of (F.device flash.old)) }
    // What is found is a good capsule, with each store that the fuses stand for.
    ensures ok { let image = now (F.device flash.old) in
        IfOk result (λ c. (nv : List ℕ) → StandForBank nv fuses.now bank →
        (g : IsGood image (place_of layout.now area) layout.now.area_len nv bank (E.accepts engine.now)) × (g.capsule ≡ c)) }
    // A good capsule is found, unless the device fails.
    ensures only { let image = now (F.device flash.old) in
        (nv : List ℕ) → StandForBank nv fuses.now bank → (g : IsGood image (place_of layout.now area) layout.now.area_len nv bank (E.accepts engine.now)) →
        Answers capsule_failure result (Ok g.capsule) }
    // Which cause it is: the first in order.
    ensures exact { Answers capsule_failure result
        (judge_area area bank (now (F.device flash.old)) fuses.now (E.accepts engine.now)) }
    // Its pages can be asked for, its regions lie in the bank, and it lies within the area with all its parts.
    ensures pages { IfOk result (λ c. HasIndex (now (F.device flash.old)) c.pages) }
    ensures regions { IfOk result (λ c. All (IsRegion layout.now (size_of (F.device flash.old))) c.manifest.regions) }
    ensures lies { IfOk result (LiesAt (now (F.device flash.old)) (place_of layout.now area) layout.now.area_len) }
    ensures ends { EndsAt (failed_by capsule_failure result) (F.device flash.old) (F.device flash.new) }
{
    let place = area.place(layout);
    Capsule::judge(flash, place, layout.area_len, bank, layout, fuses, engine)
}
