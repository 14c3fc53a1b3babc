// What the pages of a job are to hold.
ghost use Rattle.std.specs.Prelude.{◌≡◌, ◌+◌, ◌*◌, ◌≤◌, ◌<◌, if◌then◌else◌, Some, None, IfOk};
ghost use Rattle.pfr_flash.specs.Bytes.{blank, bytes_at};
ghost use Rattle.pfr_flash.specs.FlashState.{now, size_of};
ghost use Rattle.pfr_flash.specs.Layout.{IsBankSize};
ghost use Rattle.pfr_flash.specs.Reading.{EndsAt, failed_by};
ghost use Rattle.pfr_capsule.specs.PageBytes.{page_bytes};
ghost use Rattle.pfr_capsule.specs.Pages.{IsPayloadInside};
ghost use Rattle.pfr_copy.specs.Applying.{CanApply, CanCopyOver, IsActive};
ghost use Rattle.pfr_copy.specs.Working.{CanDo, is_job_page, job_page};
ghost use Rattle.pfr_rebuilt.specs.ActiveCopying.{active_page, is_active_page, is_kept};
ghost use Rattle.pfr_rebuilt.specs.Copying.{holds_text, recovery_page, text_page};

use crate::taking::{PAGE, holds_text, in_taken_region};
use pfr_capsule::{Capsule, Page, Span};
use pfr_flash::{Flash, FlashFail, Layout};
use pfr_jobs::JobKind;

/// What a page is to hold.
pub type PageBytes = [u8; PAGE as usize];

// The bytes of a page that was erased.
#[tactic(auto, unfolding(pfr_flash::specs::Bytes::blank))]
fn blank_page() -> PageBytes
    ensures { result ≡ blank }
{
    [0xFF; PAGE as usize]
}

// A page of a text in the flash, from an offset in it on. Behind the text it is 0xFF.
fn text_page<F: Flash>(flash: &mut F, text: Span, off: u32) -> Result<PageBytes, FlashFail>
    requires size { size_of (F.device flash.old) ≤ 67108864 }
    requires inside { text.at + text.len ≤ size_of (F.device flash.old) }
    ensures found { IfOk result (λ page. page ≡ text_page (bytes_at (now (F.device flash.old)) text.at text.len) off) }
    ensures ends { EndsAt (failed_by (λ fail. Some fail) result) (F.device flash.old) (F.device flash.new) }
{
    let mut page = blank_page();
    if off < text.len {
        let count = (text.len - off).min(PAGE);
        flash.read(text.at + off, &mut page[..count as usize])?;
    }
    Ok(page)
}

// What a capsule gives for a page: nothing where it leaves the page.
fn given_page<F: Flash>(flash: &mut F, page: Page) -> Result<Option<PageBytes>, FlashFail>
    requires { IsPayloadInside (size_of (F.device flash.old)) page }
    ensures found { IfOk result (λ found. found ≡ (if is_kept page then None else Some (page_bytes (now (F.device flash.old)) page))) }
    ensures ends { EndsAt (failed_by (λ fail. Some fail) result) (F.device flash.old) (F.device flash.new) }
{
    match page {
        Page::Keep => Ok(None),
        Page::Blank => Ok(Some(blank_page())),
        Page::Copy(at) => {
            let mut bytes = blank_page();
            flash.read(at, &mut bytes)?;
            Ok(Some(bytes))
        }
    }
}

// What page `n` is to hold, where a job on the active image writes it.
#[tactic(auto, unfolding(pfr_rebuilt::specs::ActiveCopying::is_active_page, pfr_rebuilt::specs::ActiveCopying::active_page))]
fn active_page<F: Flash>(
    flash: &mut F,
    capsule: &Capsule,
    layout: &Layout,
    kind: JobKind,
    n: u32,
) -> Result<Option<PageBytes>, FlashFail>
    requires size { IsBankSize (size_of (F.device flash.old)) }
    requires can { CanApply (now (F.device flash.old)) layout.now capsule.now }
    requires kind { IsActive kind }
    requires page { 4096 * n < size_of (F.device flash.old) }
    ensures found { let image = now (F.device flash.old) in
        IfOk result (λ found. found ≡ (if is_active_page kind image capsule.now layout.now n then Some (active_page image capsule.now layout.now n) else None)) }
    ensures ends { EndsAt (failed_by (λ fail. Some fail) result) (F.device flash.old) (F.device flash.new) }
{
    if holds_text(layout.manifest_at, layout.manifest_len, n) {
        let off = PAGE * n - layout.manifest_at;
        return Ok(Some(text_page(flash, capsule.signed_manifest(), off)?));
    }
    if !in_taken_region(kind, &capsule.manifest().regions, n) {
        return Ok(None);
    }
    let page = capsule.pages().page(flash, n)?;
    given_page(flash, page)
}

// What page `n` is to hold, where it holds a byte of the capsule once this is copied to the recovery area.
#[tactic(auto, unfolding(pfr_rebuilt::specs::Copying::recovery_page))]
fn recovery_page<F: Flash>(
    flash: &mut F,
    capsule: &Capsule,
    layout: &Layout,
    n: u32,
) -> Result<Option<PageBytes>, FlashFail>
    requires size { IsBankSize (size_of (F.device flash.old)) }
    requires can { CanCopyOver (now (F.device flash.old)) layout.now capsule.now }
    requires page { 4096 * n < size_of (F.device flash.old) }
    ensures found { let image = now (F.device flash.old) in
        IfOk result (λ found. found ≡ (if holds_text layout.now.recovery_at capsule.now.length n then Some (recovery_page image layout.now.staging_at capsule.now.length layout.now n) else None)) }
    ensures ends { EndsAt (failed_by (λ fail. Some fail) result) (F.device flash.old) (F.device flash.new) }
{
    if !holds_text(layout.recovery_at, capsule.length(), n) {
        return Ok(None);
    }
    let staged = Span {
        at: layout.staging_at,
        len: capsule.length(),
    };
    let off = PAGE * n - layout.recovery_at;
    Ok(Some(text_page(flash, staged, off)?))
}

/// What page `n` is to hold, where the job writes it.
#[tactic(auto, unfolding(crate::specs::Working::is_job_page, crate::specs::Working::job_page))]
pub fn new_page<F: Flash>(
    flash: &mut F,
    capsule: &Capsule,
    layout: &Layout,
    kind: JobKind,
    n: u32,
) -> Result<Option<PageBytes>, FlashFail>
    requires size { IsBankSize (size_of (F.device flash.old)) }
    requires can { CanDo kind (now (F.device flash.old)) layout.now capsule.now }
    requires page { 4096 * n < size_of (F.device flash.old) }
    ensures found { let image = now (F.device flash.old) in
        IfOk result (λ found. found ≡ (if is_job_page kind image capsule.now layout.now n then Some (job_page kind image capsule.now layout.now n) else None)) }
    ensures ends { EndsAt (failed_by (λ fail. Some fail) result) (F.device flash.old) (F.device flash.new) }
{
    match kind {
        JobKind::ActiveFromRecovery { .. } | JobKind::ActiveFromStaging { .. } => {
            active_page(flash, capsule, layout, kind, n)
        }
        JobKind::RecoveryFromStaging => recovery_page(flash, capsule, layout, n),
    }
}
