// Plays the worked example with rung labels, and prints what each request answers; then plays it with another value, and
// prints what an observer sees of both; last plays a run with consent labels.
#![tactic(auto)]

mod consents;
mod example;
mod printing;
mod seen;
#[cfg(test)]
mod tests;

use example::play;
use labels::{Consent, Label};
use monitor::{Answer, Event};
use printing::{Layout, print_run};
use rung_requests::example::requests;
use rung_requests::rung;
use seen::show_seen;
use sessions::Sealed;
use tables::Place;

const ABOUT: &str = "\
Labels are rungs 0 to 7; a:v is the value v sealed under the label a. Table 0 has label 2, first fields 1,
second fields by their first, and limit 2; table 1 has label 0, first fields 0, second fields 5, and limit 1.
Two sessions, closed at first, send requests: a line has the number of each, the session's label after it,
the request and its answer.
";

const CONSENTS: &str = "
Now with consent labels over six parties, 0 to 5. A label is two formulas, secrecy and integrity: the smallest sets of
parties whose consent suffices, and the formula's word. Table 0 has secrecy 0 | 2 and integrity never, first fields
under the lowest label, second fields under the label of the party whose number the first field holds, and limit 3.
Session 1 is cleared for what party 0 may see.
";

const COMPARED: &str = "
The same with 77 in the place of -250 in request 3: what an observer at 3 sees returned by requests 4 to 8.
";

// A placeholder for each place and event, before a run fills them.
fn nothing<L: Label>() -> (Event<L>, Place<L>) {
    let blank = Sealed::new(L::lowest(), 0);
    let event = Event {
        before: None,
        answer: Ok(Answer::Done),
        after: None,
    };
    let place = Place {
        key: 0,
        first: blank,
        second: blank,
    };
    (event, place)
}

fn run_rungs(rt: &(impl Print + AllocGlobal)) -> anyhow::Result<()> {
    let (event, place) = nothing();
    let mut events = [event; 15];
    let mut places = [place; 8];
    let observer = rung(3);
    println!(rt; "{ABOUT}")?;
    play(-250, &mut events, &mut places)?;
    print_run(rt, Layout::Short, &requests(-250), &events, &places)?;
    let one = show_seen(rt.alloc(), observer, &requests(-250), &events, &places)?;
    play(77, &mut events, &mut places)?;
    let other = show_seen(rt.alloc(), observer, &requests(77), &events, &places)?;
    println!(rt; "{COMPARED}")?;
    println!(rt; "with -250:\n{one}\nwith 77:\n{other}")?;
    let verdict = if one == other {
        "Both are the same."
    } else {
        "They differ."
    };
    println!(rt; "{verdict}")?;
    Ok(())
}

fn run_consents(rt: &impl Print) -> anyhow::Result<()> {
    let (event, place) = nothing();
    let mut events = [event; 10];
    let mut places = [place; 4];
    println!(rt; "{CONSENTS}")?;
    consents::play(&mut events, &mut places)?;
    print_run(rt, Layout::Long, &consents::requests(), &events, &places)?;
    if let Err(unlawful) = Consent::new(0x2, 0) {
        println!(rt;
            "\nThe word 0x2 makes no label, refused ({}): {unlawful}. It holds for party 0 alone and not for 0 and 1.",
            unlawful.number()
        )?;
    }
    Ok(())
}

fn main(rt: HostRuntime) -> anyhow::Result<()> {
    run_rungs(&rt)?;
    run_consents(&rt)
}
