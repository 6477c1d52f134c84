// The worked example's two tables, and its fifteen requests.
ghost use Rattle.std.specs.Prelude.{◌≡◌};
ghost use Rattle.rung_requests.specs.Example.{table_records, requests_with};

use crate::predicates::{ALL, KEY_1, LOW_SECONDS};
use crate::{delete, insert, open, rung, sealed, select, table_record, unseal, update};
use labels::Rung;
use monitor::Request;
use tables::{SecondRule, TableRecord};

pub fn records() -> [TableRecord<Rung>; 2]
    ensures { result ≡ table_records }
{
    let wells = table_record(2, 1, SecondRule::Own);
    let notes = table_record(0, 0, SecondRule::Fixed(rung(5)));
    [wells, notes]
}

pub fn requests(value: i32) -> [Request<Rung>; 15]
    ensures { result ≡ requests_with value }
{
    [
        open(0, 0, 7),
        open(1, 0, 3),
        insert(0, 0, sealed(1, 4), sealed(4, value)),
        select(1, 0, LOW_SECONDS, 4),
        select(1, 0, ALL, 4),
        unseal(1, sealed(4, -250)),
        insert(1, 1, sealed(0, 1), sealed(0, 1)),
        delete(0, 0, LOW_SECONDS),
        update(0, 0, KEY_1, sealed(1, 3), sealed(0, 9)),
        insert(0, 0, sealed(2, 4), sealed(0, 9)),
        open(0, 1, 7),
        update(0, 0, ALL, sealed(1, 3), sealed(0, 9)),
        delete(0, 0, KEY_1),
        insert(0, 0, sealed(0, 0), sealed(2, 5)),
        insert(0, 0, sealed(0, 2), sealed(2, 5)),
    ]
}
