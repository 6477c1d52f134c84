// Requests drawn one after another from a start value, the same each time.
use labels::{Label, Rung};
use monitor::{Ask, Request};
use sessions::Sealed;
use tables::{Predicate, Range};

#[derive(Drop)]
pub struct Draw {
    state: u64,
}

impl Draw {
    pub fn new(start: u64) -> Draw {
        Draw { state: start }
    }

    // A number below `count`, or 0 where that is 0.
    fn below(&mut self, count: u16) -> u16 {
        self.state = self
            .state
            .wrapping_mul(6364136223846793005)
            .wrapping_add(1442695040888963407);
        let drawn = ((self.state >> 40) & 0xffff) as u16;
        drawn.checked_rem(count).unwrap_or(0)
    }

    // The same, where low numbers come more often.
    fn low(&mut self, count: u16) -> u16 {
        let drawn = self.below(count);
        drawn.min(self.below(count))
    }

    // One of `count` values from `low` on.
    fn value(&mut self, low: i32, count: u16) -> i32 {
        low.wrapping_add(i32::from(self.below(count)))
    }

    fn low_label(&mut self) -> Rung {
        Rung::own_label(i32::from(self.low(4)))
    }

    fn label(&mut self, low: i32, count: u16) -> Rung {
        Rung::own_label(self.value(low, count))
    }

    fn sealed(&mut self) -> Sealed<Rung> {
        let label = self.low_label();
        let value = self.value(-1, 10);
        Sealed::new(label, value)
    }

    // Present once in `count` times, and then at times backwards.
    fn range(&mut self, count: u16) -> Option<Range> {
        if self.below(count) != 0 {
            return None;
        }
        let low = self.value(-1, 6);
        let high = self.value(1, 8);
        Some(Range { low, high })
    }

    fn predicate(&mut self) -> Predicate {
        let key = self.range(3);
        let first = self.range(3);
        let second = self.range(5);
        Predicate { key, first, second }
    }

    fn ask_to_open(&mut self) -> Ask<Rung> {
        let label = self.low_label();
        Ask::Open(label, self.label(2, 6))
    }

    fn ask_on_session(&mut self) -> Ask<Rung> {
        match self.below(12) {
            0 => Ask::Raise(self.label(0, 6)),
            1 => Ask::LowerClearance(self.label(2, 6)),
            2 => {
                let value = self.value(-300, 600);
                Ask::Seal(value, self.label(0, 8))
            }
            3 => Ask::Unseal(self.sealed()),
            _ => self.ask_to_open(),
        }
    }

    // Mostly one of the first four.
    fn table(&mut self) -> usize {
        match self.below(8) {
            0..=2 => 0,
            3..=4 => 2,
            5 => 1,
            6 => 3,
            _ => usize::from(self.below(7)),
        }
    }

    fn ask_on_table(&mut self) -> Ask<Rung> {
        let table = self.table();
        match self.below(10) {
            0..=1 => {
                let predicate = self.predicate();
                Ask::Select(table, predicate, usize::from(self.below(5)))
            }
            2..=3 => Ask::Delete(table, self.predicate()),
            4 => {
                let predicate = self.predicate();
                let first = self.sealed();
                Ask::Update(table, predicate, first, self.sealed())
            }
            _ => {
                let first = self.sealed();
                Ask::Insert(table, first, self.sealed())
            }
        }
    }

    fn request(&mut self) -> Request<Rung> {
        let session = usize::from(self.low(4));
        let ask = if self.below(10) < 3 {
            self.ask_on_session()
        } else {
            self.ask_on_table()
        };
        Request { session, ask }
    }

    // A list, of which the first two requests open the first two sessions. It is lent, since a whole list is a large answer.
    pub fn requests(&mut self, requests: &mut [Request<Rung>]) {
        for (i, request) in requests.iter_mut().enumerate() {
            *request = if i < 2 {
                Request {
                    session: i,
                    ask: self.ask_to_open(),
                }
            } else {
                self.request()
            };
        }
    }
}
