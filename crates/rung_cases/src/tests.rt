// What `play` answers where a case comes out otherwise than expected, and what `{:?}` shows of a sealed value.
use crate::Ask::{Raise, Select};
use crate::{Expected, Mismatch, Outcome, Request, Server, play};
use rung_requests::predicates::KEY_1;
use rung_requests::sealed;
use std::test::Fail;

// Every request comes to the same.
#[derive(Drop)]
struct Always(Outcome);

impl Server for Always {
    fn answer(&mut self, _request: Request) -> Outcome {
        self.0
    }
}

#[test]
fn the_first_mismatch_is_named(rt: HostRuntime) -> Result<(), Fail> {
    let done = (Expected::Done, None);
    let select = Request(1, Select(0, KEY_1, 4));
    let cases = [
        (Request(0, Raise(1)), Expected::Done, None),
        (select, Expected::Done, Some((2, 7))),
        (Request(0, Raise(2)), Expected::Key(1), None),
    ];
    assert_eq!(rt; play(&cases[..1], &mut Always(done)), Ok(()));
    let mismatch = Mismatch {
        number: 1,
        request: select,
        expected: (Expected::Done, Some((2, 7))),
        came: done,
    };
    assert_eq!(rt; play(&cases, &mut Always(done)), Err(mismatch));
    assert_eq!(rt;
        mismatch.to_string(rt.alloc())?.as_str(),
        "case 1, session 1 selects in 0, key 1 to 1, places 4: expected (Done, Some((2, 7))), came (Done, None)"
    );
    Ok(())
}

#[test]
fn a_sealed_value_is_shown_by_its_label(rt: HostRuntime) -> Result<(), Fail> {
    let shown = format!(in rt.alloc(); "{:?}", sealed(4, -250))?;
    assert_eq!(rt; shown.as_str(), "Sealed { label: Rung { number: 4 }, .. }");
    Ok(())
}
