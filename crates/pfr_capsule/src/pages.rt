// The pages of a capsule, as they lie in a flash.
ghost use Rattle.std.specs.Prelude.{◌≡◌, ◌+◌, ◌*◌, ◌<◌, ◌≤◌, if◌then◌else◌, Some, None, length, IfOk, IfErr};
ghost use Rattle.pfr_flash.specs.FlashState.{now, size_of, raised_by};
ghost use Rattle.pfr_flash.specs.Reading.{EndsAt, failed_by};
ghost use Rattle.pfr_capsule.specs.Maps.{map_bit, count_before, copied_before};
ghost use Rattle.pfr_capsule.specs.Pages.{HasIndex, IsPayloadInside, erase_map, copy_map, page_of};

use crate::maps::{count_before, has_bit};
use pfr_flash::{Flash, FlashFail};

/// How many bytes a page has.
pub const PAGE: u32 = 4096;

/// What becomes of a page.
#[derive(Clone, Copy, Debug, PartialEq, Eq)]
pub enum Page {
    /// It stays as it is.
    Keep,
    /// It is erased.
    Blank,
    /// It is erased, and gets the 4,096 bytes of the payload at this place.
    Copy(u32),
}

/// Where the maps and the payload of a capsule lie in a flash, and how many pages the maps have.
///
/// `before` has for each stretch of 64 pages how many pages before it are copied, and 0 past the maps.
#[derive(Clone, Copy, Debug)]
pub struct Pages {
    pub erase_at: u32,
    pub copy_at: u32,
    pub payload_at: u32,
    pub bits: u32,
    pub before: [u16; 256],
}

impl Pages {
    /// What becomes of page `n`.
    ///
    /// It reads a byte of the erase map, and at most eight of the copy map.
    #[tactic(auto, using(pfr_flash::proofs::EndsLemmas::then_ends))]
    pub fn page<F: Flash>(&self, flash: &mut F, n: u32) -> Result<Page, FlashFail>
        requires size { size_of (F.device flash.old) ≤ 67108864 }
        requires index { HasIndex (now (F.device flash.old)) self.now }
        requires inside { n < self.now.bits }
        ensures found { IfOk result (λ page. page ≡ page_of (now (F.device flash.old)) self.now n) }
        ensures payload { IfOk result (λ page. IsPayloadInside (size_of (F.device flash.old)) page) }
        ensures taken { (F.device flash.new).taken ≤ raised_by (F.device flash.old).taken 16 }
        ensures ends { EndsAt (failed_by (λ fail. Some fail) result) (F.device flash.old) (F.device flash.new) }
    {
        if !self.is_erased(flash, n)? {
            return Ok(Page::Keep);
        }
        match self.copied_before(flash, n)? {
            Some(count) => Ok(Page::Copy(self.payload_at + count * PAGE)),
            None => Ok(Page::Blank),
        }
    }

    /// Whether page `n` is to be erased.
    fn is_erased<F: Flash>(&self, flash: &mut F, n: u32) -> Result<bool, FlashFail>
        requires size { size_of (F.device flash.old) ≤ 67108864 }
        requires index { HasIndex (now (F.device flash.old)) self.now }
        requires inside { n < self.now.bits }
        ensures found { IfOk result (λ erased. erased ≡ map_bit (erase_map (now (F.device flash.old)) self.now) n) }
        ensures taken { (F.device flash.new).taken ≤ raised_by (F.device flash.old).taken 1 }
        ensures ends { EndsAt (failed_by (λ fail. Some fail) result) (F.device flash.old) (F.device flash.new) }
    {
        let mut byte = [0; 1];
        flash.read(self.erase_at + n / 8, &mut byte)?;
        Ok(has_bit(&byte, n % 8))
    }

    /// How many pages before page `n` are copied, where it is copied itself.
    fn copied_before<F: Flash>(&self, flash: &mut F, n: u32) -> Result<Option<u32>, FlashFail>
        requires size { size_of (F.device flash.old) ≤ 67108864 }
        requires index { HasIndex (now (F.device flash.old)) self.now }
        requires inside { n < self.now.bits }
        ensures found { IfOk result (λ count. count ≡ copied_before (copy_map (now (F.device flash.old)) self.now) n) }
        ensures taken { (F.device flash.new).taken ≤ raised_by (F.device flash.old).taken 8 }
        ensures ends { EndsAt (failed_by (λ fail. Some fail) result) (F.device flash.old) (F.device flash.new) }
    {
        let mut stretch = [0; 8];
        let len = n / 8 % 8 + 1;
        let stretch = &mut stretch[0..len as usize];
        flash.read(self.copy_at + n / 64 * 8, stretch)?;
        Ok(copied_in(stretch, self.before[(n / 64) as usize], n % 64))
    }
}

/// How many pages before page `n` of a stretch are copied, with those before the stretch, where that page is.
fn copied_in(stretch: &[u8], before: u16, n: u32) -> Option<u32>
    requires inside { n < 8 * length stretch.now }
    requires short { length stretch.now ≤ 2048 }
    ensures { result ≡ (if map_bit stretch.now n then Some (before + count_before stretch.now n) else None) }
{
    if has_bit(stretch, n) {
        Some(u32::from(before) + count_before(stretch, n))
    } else {
        None
    }
}
