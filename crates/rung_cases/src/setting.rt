// The records that the cases are played on, and rows as they are answered.
ghost use Rattle.std.specs.Prelude.{◌≡◌};
ghost use Rattle.rung_cases.specs.Setting.{case_records, blank, numbers_in};

use labels::Rung;
use rung_requests::{rung, sealed, table_record};
use sessions::Sealed;
use tables::{Place, SecondRule, TableRecord};

// The cases are played on a store with tables 0 to 4; record 5 has no table.
pub fn records() -> [TableRecord<Rung>; 6]
    ensures { result ≡ case_records }
{
    [
        table_record(2, 1, SecondRule::Own),
        table_record(0, 0, SecondRule::Fixed(rung(5))),
        table_record(1, 3, SecondRule::Own),
        table_record(3, 0, SecondRule::Meet(rung(4))),
        table_record(1, 1, SecondRule::Join(rung(2))),
        table_record(0, 0, SecondRule::Own),
    ]
}

pub fn place(key: u32, first: Sealed<Rung>, second: Sealed<Rung>) -> Place<Rung>
    ensures { result ≡ record { key = key; first = first; second = second } }
{
    Place { key, first, second }
}

// A place as it is lent, with values that no selection writes there.
pub fn blank_place() -> Place<Rung>
    ensures { result ≡ blank }
{
    place(99, sealed(0, -1), sealed(0, -1))
}

// A row as it is answered, in numbers: its key, and the label and the value of each field, as the host sees them.
pub fn place_numbers(place: Place<Rung>) -> (u32, (u8, i32), (u8, i32))
    ensures { result ≡ numbers_in place }
{
    (
        place.key,
        (place.first.label().number(), place.first.host_value()),
        (place.second.label().number(), place.second.host_value()),
    )
}
