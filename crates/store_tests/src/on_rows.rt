// Short runs of the packed store over lent rows, with answers worked out by hand.
use crate::checks::{GARBAGE, Thinning, check_adds, check_rows};
use packed::Packed;
use std::test::Fail;
use stores::{Plan, Store};

#[test]
fn starts_empty(rt: HostRuntime) -> Result<(), Fail> {
    let mut rows = [GARBAGE; 4];
    let store = Packed::new(Plan::of(&[1, 3])?, &mut rows);
    assert_eq!(rt; store.table_count(), 2);
    assert_eq!(rt; store.row_count(0), Some(0));
    assert_eq!(rt; store.row_count(1), Some(0));
    assert_eq!(rt; store.row_count(2), None);
    check_rows(&rt, &store, &[(0, 0, None), (1, 0, None), (2, 0, None)]);
    Ok(())
}

#[test]
fn fills_to_the_limits(rt: HostRuntime) -> Result<(), Fail> {
    let mut rows = [GARBAGE; 4];
    let mut store = Packed::new(Plan::of(&[2, 0, 1])?, &mut rows);
    check_adds(
        &rt,
        &mut store,
        &[
            (2, 30, 31, Ok(1)),
            (0, 10, 11, Ok(1)),
            (0, 20, 21, Ok(2)),
            (0, 0, 0, Err(12)),
            (1, 0, 0, Err(12)),
            (2, 0, 0, Err(12)),
            (3, 0, 0, Err(3)),
        ],
    );
    check_rows(
        &rt,
        &store,
        &[
            (0, 0, Some((1, 10, 11))),
            (0, 1, Some((2, 20, 21))),
            (2, 0, Some((1, 30, 31))),
        ],
    );
    Ok(())
}

#[test]
fn removal_keeps_order_and_keys_go_on(rt: HostRuntime) -> Result<(), Fail> {
    let mut rows = [GARBAGE; 4];
    let mut store = Packed::new(Plan::of(&[3])?, &mut rows);
    check_adds(
        &rt,
        &mut store,
        &[(0, 10, 0, Ok(1)), (0, 20, 0, Ok(2)), (0, 30, 0, Ok(3))],
    );
    assert!(rt; store.remove(0, 0));
    assert!(rt; !store.remove(0, 2));
    check_adds(&rt, &mut store, &[(0, 40, 0, Ok(4))]);
    check_rows(
        &rt,
        &store,
        &[
            (0, 0, Some((2, 20, 0))),
            (0, 1, Some((3, 30, 0))),
            (0, 2, Some((4, 40, 0))),
        ],
    );
    Ok(())
}

#[test]
fn sweep_removes_and_rewrites(rt: HostRuntime) -> Result<(), Fail> {
    let mut rows = [GARBAGE; 8];
    let mut store = Packed::new(Plan::of(&[5, 1])?, &mut rows);
    check_adds(
        &rt,
        &mut store,
        &[
            (1, 60, 61, Ok(1)),
            (0, 10, 0, Ok(1)),
            (0, 20, 0, Ok(2)),
            (0, 30, 0, Ok(3)),
            (0, 40, 0, Ok(4)),
            (0, 50, 0, Ok(5)),
        ],
    );
    assert_eq!(rt; store.sweep(0, &Thinning), 3);
    check_rows(
        &rt,
        &store,
        &[
            (0, 0, Some((1, 10, 0))),
            (0, 1, Some((3, 7, 8))),
            (0, 2, Some((5, 50, 0))),
            (0, 3, None),
            (1, 0, Some((1, 60, 61))),
        ],
    );
    Ok(())
}
