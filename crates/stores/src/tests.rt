// Limits that can be laid out, and limits that cannot, by docs/MODEL.md.
use super::Plan;
use std::test::Fail;

#[test]
fn limits_that_fit(rt: HostRuntime) -> Result<(), Fail> {
    assert_eq!(rt; Plan::<0>::of(&[0])?.count(), 1);
    assert_eq!(rt; Plan::<3>::of(&[2, 1])?.limit(1), 1);
    assert_eq!(rt; Plan::<2048>::of(&[2048])?.limit(0), 2048);
    assert_eq!(rt; Plan::<0>::of(&[0, 0, 0, 0, 0, 0, 0, 0])?.count(), 8);
    assert_eq!(rt; Plan::<3>::of(&[2, 1])?.limit(2), 0);
    Ok(())
}

#[test]
fn limits_that_do_not(rt: HostRuntime) {
    assert!(rt; Plan::<3000>::of(&[]).is_err());
    assert!(rt; Plan::<3000>::of(&[0, 0, 0, 0, 0, 0, 0, 0, 0]).is_err());
    assert!(rt; Plan::<3000>::of(&[2048, 1]).is_err());
    assert!(rt; Plan::<3>::of(&[2, 2]).is_err());
    assert!(rt; Plan::<3000>::of(&[18446744073709551615, 1]).is_err());
}
