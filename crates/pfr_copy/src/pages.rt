// The pages of a job are written.
ghost use Rattle.std.specs.Prelude.{◌≡◌, ◌*◌, ◌-◌, ◌<◌, ◌≤◌, IfOk};
ghost use Rattle.pfr_flash.specs.FlashState.{now, size_of};
ghost use Rattle.pfr_flash.specs.Layout.{IsBankSize};
ghost use Rattle.pfr_flash.specs.Plan.{Follows};
ghost use Rattle.pfr_copy.specs.Applying.{page_plan};
ghost use Rattle.pfr_copy.specs.Working.{CanDo, is_job_page, job_page};
ghost use Rattle.pfr_strokes.specs.Replaced.{has_pages, pages_between};
ghost use Rattle.pfr_strokes.specs.Strokes.{strokes_of};

use crate::contents::new_page;
use pfr_capsule::Capsule;
use pfr_flash::{Flash, FlashFail, Layout};
use pfr_jobs::JobKind;
use pfr_strokes::write_page;

// Writes page `n`, where the job writes it, and says whether it does.
fn replace_page<F: Flash>(
    flash: &mut F,
    capsule: &Capsule,
    layout: &Layout,
    kind: JobKind,
    n: u32,
) -> Result<bool, FlashFail>
    requires size { IsBankSize (size_of (F.device flash.old)) }
    requires can { CanDo kind (now (F.device flash.old)) layout.now capsule.now }
    requires page { 4096 * n < size_of (F.device flash.old) }
    ensures follows { let image = now (F.device flash.old) in
        Follows (page_plan (job_page kind image capsule.now layout.now) (is_job_page kind image capsule.now layout.now) n) (F.device flash.old) (F.device flash.new) result }
    ensures some { IfOk result (λ some. some ≡ is_job_page kind (now (F.device flash.old)) capsule.now layout.now n) }
{
    match new_page(flash, capsule, layout, kind, n)? {
        Some(bytes) => {
            write_page(flash, n, &bytes)?;
            Ok(true)
        }
        None => Ok(false),
    }
}

/// Writes the job's pages among those from one on to before another, in rising order, and says whether there is one.
pub fn replace_pages<F: Flash>(
    flash: &mut F,
    capsule: &Capsule,
    layout: &Layout,
    kind: JobKind,
    from: u32,
    to: u32,
) -> Result<bool, FlashFail>
    requires size { IsBankSize (size_of (F.device flash.old)) }
    requires can { CanDo kind (now (F.device flash.old)) layout.now capsule.now }
    requires rising { from ≤ to }
    requires inside { 4096 * to ≤ size_of (F.device flash.old) }
    ensures follows { let image = now (F.device flash.old) in
        Follows (strokes_of (job_page kind image capsule.now layout.now) (pages_between (is_job_page kind image capsule.now layout.now) from (to - from))) (F.device flash.old) (F.device flash.new) result }
    ensures some { let image = now (F.device flash.old) in
        IfOk result (λ some. some ≡ has_pages (pages_between (is_job_page kind image capsule.now layout.now) from (to - from))) }
{
    let mut some = false;
    for n in from..to {
        some |= replace_page(flash, capsule, layout, kind, n)?;
    }
    Ok(some)
}
