//! When the active image of a bank is trusted, and the capsule in an area of it is good.
#![tactic(auto)]

ghost use Rattle.std.specs.Prelude.{◌≡◌, ℕ, List, IfOk, Ok};
ghost use Rattle.pfr_flash.specs.FlashState.{now, size_of};
ghost use Rattle.pfr_flash.specs.Layout.{IsBankSize, IsValidLayout};
ghost use Rattle.pfr_flash.specs.Reading.{EndsAt, failed_by};
ghost use Rattle.pfr_fuses.specs.RootSlot.{layout_of};
ghost use Rattle.pfr_flash.specs.Answer.{Answers};
ghost use Rattle.pfr_auth.specs.Answer.{active_failure};
ghost use Rattle.pfr_auth.specs.Judge.{judge_active};
ghost use Rattle.pfr_auth.specs.Lasting.{KeepsTrustedBytes, KeepsTrustedFuses};
ghost use Rattle.pfr_auth.specs.Throughout.{IsTrustedBy, StaysTrusted};
ghost use Rattle.pfr_auth.specs.Trusted.{IsTrusted, StandFor};

mod areas;
mod fail;
mod hashes;
mod judging;

pub use areas::{Area, capsule_at};
pub use fail::ActiveFail;
use pfr_chain::Engine;
use pfr_flash::{Bank, Flash, Layout};
use pfr_fuses::Fuses;
use pfr_manifest::Manifest;

/// Judges the active image of a bank, and gives the manifest that it is signed by.
///
/// The layout is the bank's of the provision that `fuses` were read with. The static regions are hashed as they are
/// read, in the order of the manifest, and nothing of them is kept.
pub fn active<F: Flash, E: Engine>(
    flash: &mut F,
    bank: Bank,
    layout: &Layout,
    fuses: &Fuses,
    engine: &E,
) -> Result<Manifest, ActiveFail>
    requires size { IsBankSize (size_of (F.device flash.old)) }
    requires layout { layout.now ≡ layout_of fuses.now.provision bank }
    requires valid { IsValidLayout layout.now (size_of (F.device flash.old)) }
    // What is found to be trusted is, by this manifest, with each store that the fuses stand for.
    ensures ok { let image = now (F.device flash.old) in
        IfOk result (λ m. (nv : List ℕ) → StandFor nv fuses.now bank → IsTrustedBy m image nv bank (E.accepts engine.now)) }
    // It stays trusted while the bytes stay that its trust rests on.
    ensures lasts { let image = now (F.device flash.old) in
        IfOk result (λ m. (nv later after : List ℕ) → StandFor nv fuses.now bank → KeepsTrustedBytes layout.now m image later → KeepsTrustedFuses bank nv after →
        IsTrustedBy m later after bank (E.accepts engine.now)) }
    // So a trusted bank is trusted at every count of operations that touch none of these bytes.
    ensures spans { StaysTrusted }
    // What is trusted is found to be, unless the device fails.
    ensures only { let image = now (F.device flash.old) in
        (nv : List ℕ) → StandFor nv fuses.now bank → (t : IsTrusted image nv bank (E.accepts engine.now)) →
        Answers active_failure result (Ok t.manifest) }
    // Which cause it is: the first in order.
    ensures exact { Answers active_failure result (judge_active (now (F.device flash.old)) bank fuses.now (E.accepts engine.now)) }
    ensures ends { EndsAt (failed_by active_failure result) (F.device flash.old) (F.device flash.new) }
{
    judging::judged(flash, bank, layout, fuses, engine)
}
