// Rungs at both ends, with values worked out by hand from docs/MODEL.md.
use super::{Label, Rung, UnlawfulLabel};
use std::test::Fail;

const OWN_LABELS: [(i32, u8); 8] = [
    (-2147483648, 7),
    (-1, 7),
    (0, 0),
    (1, 1),
    (6, 6),
    (7, 7),
    (8, 7),
    (2147483647, 7),
];

// Two rungs, whether the first flows to the second, their join and their meet.
const PAIRS: [(u64, u64, bool, u8, u8); 6] = [
    (0, 0, true, 0, 0),
    (0, 7, true, 7, 0),
    (7, 0, false, 7, 0),
    (7, 7, true, 7, 7),
    (3, 4, true, 4, 3),
    (4, 3, false, 4, 3),
];

#[test]
fn own_labels(rt: HostRuntime) {
    for (value, number) in &OWN_LABELS {
        assert_eq!(rt; Rung::own_label(*value).number(), *number);
    }
}

#[test]
fn pairs(rt: HostRuntime) -> Result<(), Fail> {
    for (a, b, flows, join, meet) in &PAIRS {
        let a = Rung::new(*a)?;
        let b = Rung::new(*b)?;
        assert_eq!(rt; a.flows_to(b), *flows);
        assert_eq!(rt; a.join(b).number(), *join);
        assert_eq!(rt; a.meet(b).number(), *meet);
    }
    assert_eq!(rt; Rung::lowest().number(), 0);
    Ok(())
}

#[test]
fn numbers(rt: HostRuntime) -> Result<(), Fail> {
    assert_eq!(rt; Rung::new(0)?.number(), 0);
    assert_eq!(rt; Rung::new(7)?.number(), 7);
    assert_eq!(rt; Rung::new(8), Err(UnlawfulLabel));
    assert_eq!(rt; Rung::new(18446744073709551615), Err(UnlawfulLabel));
    assert_eq!(rt; UnlawfulLabel.number(), 15);
    Ok(())
}
