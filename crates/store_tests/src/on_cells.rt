// Short runs of the chained store over lent cells, with answers worked out by hand.
use crate::checks::{GARBAGE, Thinning, check_adds, check_rows};
use chained::{Cell, Chained};
use std::test::Fail;
use stores::{Plan, Row, Store, Visit};

const CELL: Cell = Cell {
    row: GARBAGE,
    next: 99,
};

#[test]
fn starts_empty(rt: HostRuntime) -> Result<(), Fail> {
    let mut cells = [CELL; 4];
    let store = Chained::new(Plan::of(&[1, 3])?, &mut cells);
    assert_eq!(rt; store.table_count(), 2);
    assert_eq!(rt; store.row_count(0), Some(0));
    assert_eq!(rt; store.row_count(1), Some(0));
    assert_eq!(rt; store.row_count(2), None);
    check_rows(&rt, &store, &[(0, 0, None), (1, 0, None), (2, 0, None)]);
    Ok(())
}

#[test]
fn fills_to_the_limits(rt: HostRuntime) -> Result<(), Fail> {
    let mut cells = [CELL; 4];
    let mut store = Chained::new(Plan::of(&[2, 0, 1, 0, 0, 0, 0, 1])?, &mut cells);
    check_adds(
        &rt,
        &mut store,
        &[
            (2, 30, -1, Ok(1)),
            (0, 10, -1, Ok(1)),
            (7, 80, -1, Ok(1)),
            (0, 20, -1, Ok(2)),
            (0, 0, -1, Err(12)),
            (1, 0, -1, Err(12)),
            (2, 0, -1, Err(12)),
            (7, 0, -1, Err(12)),
            (8, 0, -1, Err(3)),
        ],
    );
    check_rows(
        &rt,
        &store,
        &[
            (0, 0, Some((1, 10, -1))),
            (0, 1, Some((2, 20, -1))),
            (2, 0, Some((1, 30, -1))),
            (7, 0, Some((1, 80, -1))),
        ],
    );
    Ok(())
}

#[test]
fn one_cell(rt: HostRuntime) -> Result<(), Fail> {
    let mut cells = [CELL; 1];
    let mut store = Chained::new(Plan::of(&[0, 1])?, &mut cells);
    check_adds(&rt, &mut store, &[(1, 10, -1, Ok(1)), (1, 0, -1, Err(12))]);
    assert!(rt; store.remove(1, 0));
    assert!(rt; !store.remove(1, 0));
    check_adds(&rt, &mut store, &[(0, 0, -1, Err(12)), (1, 20, -1, Ok(2))]);
    assert!(rt; store.replace(1, 0, 21, 22));
    check_rows(&rt, &store, &[(1, 0, Some((2, 21, 22))), (1, 1, None)]);
    Ok(())
}

// A cell that one table frees is the next that the other takes.
#[test]
fn tables_take_turns(rt: HostRuntime) -> Result<(), Fail> {
    let mut cells = [CELL; 5];
    let mut store = Chained::new(Plan::of(&[3, 2])?, &mut cells);
    check_adds(
        &rt,
        &mut store,
        &[(0, 10, -1, Ok(1)), (0, 20, -1, Ok(2)), (0, 30, -1, Ok(3))],
    );
    assert!(rt; store.remove(0, 1));
    check_adds(&rt, &mut store, &[(1, 40, -1, Ok(1)), (1, 50, -1, Ok(2))]);
    assert!(rt; store.remove(0, 1));
    assert!(rt; store.remove(1, 0));
    check_adds(
        &rt,
        &mut store,
        &[(0, 60, -1, Ok(4)), (0, 70, -1, Ok(5)), (1, 80, -1, Ok(3))],
    );
    assert!(rt; store.remove(0, 0));
    assert!(rt; !store.remove(0, 2));
    check_rows(
        &rt,
        &store,
        &[
            (0, 0, Some((4, 60, -1))),
            (0, 1, Some((5, 70, -1))),
            (0, 2, None),
            (1, 0, Some((2, 50, -1))),
            (1, 1, Some((3, 80, -1))),
            (1, 2, None),
        ],
    );
    Ok(())
}

// The key of the last row that was visited.
#[derive(Drop)]
struct LastKey {
    key: u32,
}

impl Visit for LastKey {
    ghost step = { λ _ r. record { key = r.key } };

    fn visit(&mut self, row: Row) {
        self.key = row.key;
    }
}

#[test]
fn sweep_and_walk(rt: HostRuntime) -> Result<(), Fail> {
    let mut cells = [CELL; 8];
    let mut store = Chained::new(Plan::of(&[4, 2])?, &mut cells);
    check_adds(
        &rt,
        &mut store,
        &[
            (0, 10, -1, Ok(1)),
            (1, 60, -1, Ok(1)),
            (0, 20, -1, Ok(2)),
            (0, 30, -1, Ok(3)),
            (0, 40, -1, Ok(4)),
        ],
    );
    assert_eq!(rt; store.sweep(0, &Thinning), 3);
    check_adds(&rt, &mut store, &[(1, 70, -1, Ok(2)), (0, 50, -1, Ok(5))]);
    check_rows(
        &rt,
        &store,
        &[
            (0, 0, Some((1, 10, -1))),
            (0, 1, Some((3, 7, 8))),
            (0, 2, Some((5, 50, -1))),
            (0, 3, None),
            (1, 0, Some((1, 60, -1))),
            (1, 1, Some((2, 70, -1))),
        ],
    );
    let mut last = LastKey { key: 0 };
    store.walk(0, &mut last);
    assert_eq!(rt; last.key, 5);
    assert_eq!(rt; store.sweep(1, &Thinning), 1);
    assert_eq!(rt; store.row_count(1), Some(1));
    Ok(())
}
