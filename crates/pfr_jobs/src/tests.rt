// How many operations a job takes, on a store whose page has room and on one whose page is full.
ghost use Rattle.std.specs.Prelude.{◌≡◌, IfOk};
ghost use Rattle.pfr_flash.specs.FlashState.{size_of};

use crate::{JobKind, JobLog, OpenJob};
use pfr_flash::{Bank, Flash, MemFlash};
use std::alloc::Global;
use std::process::Abort;
use std::test::Fail;

// a store of 0xFF but for one byte, that is on
fn store(rt: &impl Abort, alloc: Global, at: usize) -> Result<MemFlash, Fail>
    ensures { IfOk result (λ flash. size_of flash.device ≡ 32768) }
{
    let mut bytes = vec![in alloc; 0xFF; 32768]?;
    assert!(rt; at < bytes.len());
    bytes[at] = 0x00;
    assert_eq!(rt; bytes.len(), 32768);
    let mut nv = MemFlash::new(alloc, bytes, 20)?;
    nv.power_up();
    assert_eq!(rt; nv.size(), 32768);
    Ok(nv)
}

// the counts of operations behind the begin of a job, and behind one mark, left alone the second time, and its end
fn job_counts(rt: &impl Abort, nv: &mut MemFlash) -> (u32, u32)
    requires { size_of nv.old.device ≡ 32768 }
{
    let mut log = JobLog::load(nv, Bank::Pch).expect(rt, "the store is on");
    assert_eq!(rt; log.job(), OpenJob::None);
    assert_eq!(rt;
        log.begin(nv, JobKind::RecoveryFromStaging, &[7; 32]),
        Ok(())
    );
    let begun = nv.op_count();
    assert_eq!(rt; log.mark(nv, 100), Ok(()));
    assert_eq!(rt; log.mark(nv, 100), Ok(()));
    assert_eq!(rt; log.finish(nv), Ok(()));
    (begun, nv.op_count())
}

#[test]
fn in_the_page(rt: HostRuntime) -> Result<(), Fail> {
    let mut nv = store(&rt, rt.alloc(), 0x4001)?;
    assert_eq!(rt; job_counts(&rt, &mut nv), (2, 4));
    Ok(())
}

#[test]
fn in_the_other_page(rt: HostRuntime) -> Result<(), Fail> {
    let mut nv = store(&rt, rt.alloc(), 0x4FFF)?;
    assert_eq!(rt; job_counts(&rt, &mut nv), (4, 6));
    Ok(())
}
