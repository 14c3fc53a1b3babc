// An update capsule of a bank, as it was judged.
ghost use Rattle.std.specs.Prelude.{◌≡◌, ◌+◌, ◌≤◌, ℕ, List, All, IfOk, Ok};
ghost use Rattle.pfr_flash.specs.FlashState.{now, size_of};
ghost use Rattle.pfr_flash.specs.Layout.{IsBankSize, IsValidLayout};
ghost use Rattle.pfr_flash.specs.Reading.{EndsAt, failed_by};
ghost use Rattle.pfr_fuses.specs.RootSlot.{layout_of};
ghost use Rattle.pfr_manifest.specs.Regions.{IsRegion};
ghost use Rattle.pfr_flash.specs.Answer.{Answers};
ghost use Rattle.pfr_capsule.specs.Answer.{capsule_failure};
ghost use Rattle.pfr_capsule.specs.Good.{IsGood, StandForBank};
ghost use Rattle.pfr_capsule.specs.Judge.{judge_capsule};
ghost use Rattle.pfr_capsule.specs.Lying.{LiesAt};
ghost use Rattle.pfr_capsule.specs.Pages.{HasIndex};

use crate::fail::CapsuleFail;
use crate::judging::judged;
use crate::pages::Pages;
use crate::span::Span;
use pfr_chain::Engine;
use pfr_flash::{Bank, Flash, Layout};
use pfr_fuses::Fuses;
use pfr_manifest::Manifest;
use std::marker::Model;

/// A capsule that was judged good: its manifest, and where its parts lie. Its pages stay in the flash.
#[derive(Drop)]
pub struct Capsule {
    pub(crate) manifest: Manifest,
    pub(crate) size: u32,
    pub(crate) digest: [u8; 32],
    pub(crate) capsule_key: u8,
    pub(crate) manifest_key: u8,
    pub(crate) signed_manifest: Span,
    pub(crate) pages: Pages,
}

impl Model for Capsule {
    ghost use Rattle.pfr_capsule.specs.CapsuleState.{CapsuleState};

    ghost Value = { CapsuleState };

    ghost view = { λ c. record {
      manifest = c.manifest;
      length = c.size;
      digest = c.digest;
      capsule_key = c.capsule_key;
      manifest_key = c.manifest_key;
      signed_manifest = c.signed_manifest;
      pages = c.pages;
    } };
}

impl Capsule {
    /// Judges the capsule at `place`, its signature block and its body within `len` bytes.
    ///
    /// The layout is the bank's of the provision that `fuses` were read with. All that is hashed is read in small
    /// pieces, and nothing of it is kept.
    pub fn judge<F: Flash, E: Engine>(
        flash: &mut F,
        place: u32,
        len: u32,
        bank: Bank,
        layout: &Layout,
        fuses: &Fuses,
        engine: &E,
    ) -> Result<Capsule, CapsuleFail>
        requires size { IsBankSize (size_of (F.device flash.old)) }
        requires inside { place + len ≤ size_of (F.device flash.old) }
        requires layout { layout.now ≡ layout_of fuses.now.provision bank }
        requires valid { IsValidLayout layout.now (size_of (F.device flash.old)) }
        // What is found is a good capsule, with each store that the fuses stand for.
        ensures ok { let image = now (F.device flash.old) in
            IfOk result (λ c. (nv : List ℕ) → StandForBank nv fuses.now bank → (g : IsGood image place len nv bank (E.accepts engine.now)) × (g.capsule ≡ c)) }
        // A good capsule is found, unless the device fails.
        ensures only { let image = now (F.device flash.old) in
            (nv : List ℕ) → StandForBank nv fuses.now bank → (g : IsGood image place len nv bank (E.accepts engine.now)) →
            Answers capsule_failure result (Ok g.capsule) }
        // Which cause it is: the first in order.
        ensures exact { Answers capsule_failure result
            (judge_capsule (now (F.device flash.old)) place len bank layout.now fuses.now (E.accepts engine.now)) }
        // Its pages can be asked for, its regions lie in the bank, and it lies within the length with all its parts.
        ensures pages { IfOk result (λ c. HasIndex (now (F.device flash.old)) c.pages) }
        ensures regions { IfOk result (λ c. All (IsRegion layout.now (size_of (F.device flash.old))) c.manifest.regions) }
        ensures lies { IfOk result (LiesAt (now (F.device flash.old)) place len) }
        ensures ends { EndsAt (failed_by capsule_failure result) (F.device flash.old) (F.device flash.new) }
    {
        judged(flash, place, len, bank, layout, fuses, engine)
    }

    /// The manifest of the firmware that it brings.
    pub fn manifest(&self) -> &Manifest
        ensures { result.now ≡ self.now.manifest }
    {
        &self.manifest
    }

    /// How many bytes its signature block and its body have.
    pub fn length(&self) -> u32
        ensures { result ≡ self.now.length }
    {
        self.size
    }

    /// The SHA-256 of its signature block and its body.
    pub fn digest(&self) -> [u8; 32]
        ensures { result ≡ self.now.digest }
    {
        self.digest
    }

    /// The id of the key that signed it.
    pub fn capsule_key(&self) -> u8
        ensures { result ≡ self.now.capsule_key }
    {
        self.capsule_key
    }

    /// The id of the key that signed its manifest.
    pub fn manifest_key(&self) -> u8
        ensures { result ≡ self.now.manifest_key }
    {
        self.manifest_key
    }

    /// Where its manifest and the manifest's signature block lie.
    pub fn signed_manifest(&self) -> Span
        ensures { result ≡ self.now.signed_manifest }
    {
        self.signed_manifest
    }

    /// Where its maps and its payload lie.
    pub fn pages(&self) -> &Pages
        ensures { result.now ≡ self.now.pages }
    {
        &self.pages
    }
}
