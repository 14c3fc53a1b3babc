// Watches over whole boots.
use crate::{Stage, Watch};
use pfr_flash::Bank;
use std::process::Abort;
use std::test::Fail;

#[test]
fn expires_at_its_length(rt: HostRuntime) -> Result<(), Fail> {
    let mut watch = Watch::new(Bank::Bmc);
    assert_eq!(rt; watch.tick(1499), false);
    assert_eq!(rt; watch.left, 1);
    assert_eq!(rt; watch.tick(1), true);
    assert_eq!(rt; watch.left, 1);
    assert_eq!(rt; watch.expire(), 1);
    watch.restart(Bank::Bmc);
    assert_eq!(rt; (watch.left, watch.recoveries), (1500, 1));
    Ok(())
}

#[test]
fn passes_each_stage(rt: HostRuntime) -> Result<(), Fail> {
    let mut watch = Watch::new(Bank::Pch);
    assert_eq!(rt; watch.expire(), 1);
    assert_eq!(rt; watch.pass(), Stage::Acm);
    assert_eq!(rt; watch.pass(), Stage::Ibb);
    assert_eq!(rt; (watch.left, watch.recoveries), (1000, 1));
    assert_eq!(rt; watch.pass(), Stage::Obb);
    assert_eq!(rt; watch.pass(), Stage::Done);
    assert_eq!(rt; (watch.left, watch.recoveries), (0, 0));
    assert_eq!(rt; watch.tick(65535), false);
    Ok(())
}

#[test]
fn counts_to_four(rt: HostRuntime) -> Result<(), Fail> {
    let mut watch = Watch {
        stage: Stage::Ibb,
        left: 7,
        recoveries: 3,
    };
    assert_eq!(rt; watch.expire(), 4);
    assert_eq!(rt; watch.expire(), 4);
    watch.recoveries = 255;
    assert_eq!(rt; watch.expire(), 4);
    assert_eq!(rt; (watch.stage, watch.left), (Stage::Ibb, 7));
    Ok(())
}
