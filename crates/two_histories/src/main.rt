// Plays two histories that differ above a label, and prints what an observer at that label sees of each: the same.
#![tactic(auto)]

mod histories;
mod show;

use anyhow::ensure;
use chained::{Cell, Chained};
use histories::{left_requests, observer, play_both, records, right_requests};
use labels::{Label, Rung};
use monitor::{Event, Request};
use packed::Packed;
use rung_requests::blanks::{NO_EVENT, no_place};
use sessions::Session;
use show::{show_extent, show_history, show_monitor};
use stores::{Plan, Row, Store};
use tables::Place;
use wording::show;

const INTRODUCTION: &str = "\
Two histories of requests are played, each on a new monitor: left over a packed store, right over a chained one.
They differ in values sealed above the label 3 and in what is asked above it. This shows that an observer at the
label 3 sees the same of both.

Labels are the rungs 0 to 7: what is under a label may be seen at that label and above it. a:v is the value v
sealed under the label a; a:* is one whose value the observer does not see, since a is above 3. A session has a
label, which rises with what it reads, and a clearance, above which it never rises. There are two tables, 0 and 1,
whose rows have a key, a first and a second field; who selects rows says for how many he has places.
Table 0: number of rows and keys under 2, first fields under 1, each second field under the number that the first
field holds (any but 0 to 7 counts as 7), at most 3 rows. The observer sees all but the second fields above 3.
Table 1: number of rows and keys under 5, first fields under 4, second fields under 6, at most 2 rows. The
observer sees nothing of it.

What really happens, with the label of the session after each request, and with what the observer sees of the
request: its answer, only that it is made, or nothing.";

// All of a history, as the host sees it: nothing is blanked at the highest label. A history, its events and its places are three
// slices throughout, as the monitor was lent them.
fn print_history(
    rt: &(impl Print + AllocGlobal),
    side: &str,
    requests: &[Request<Rung>],
    events: &[Event<Rung>],
    places: &[Place<Rung>],
) -> anyhow::Result<()> {
    let highest = Rung::own_label(7);
    let lines = show_history(rt.alloc(), highest, requests, events, places)?;
    println!(rt; "\nlabel  seen     {side} history: request -> answer")?;
    for ((request, event), line) in requests.iter().zip(events).zip(&lines) {
        let label = show(event.after).to_string(rt.alloc())?;
        let extent = show_extent(observer(), *request, *event);
        println!(rt; "{label:>5}  {extent:<7}  {line}")?;
    }
    Ok(())
}

// An error if what is seen of both differs.
fn expect_same(left: &[String], right: &[String]) -> anyhow::Result<()> {
    ensure!(left == right, "the observer sees a difference");
    Ok(())
}

// What the observer sees of the requests, those to the right below those to the left.
fn print_requests(rt: &impl Print, left: &[String], right: &[String]) -> anyhow::Result<()> {
    println!(rt; "\nWhat the observer at 3 sees of both, request by request:")?;
    for (i, (left, right)) in left.iter().zip(right).enumerate() {
        println!(rt; "{:>2}  left   {left}\n    right  {right}", i + 1)?;
    }
    expect_same(left, right)?;
    println!(rt;
        "\nBoth are the same.\n\nWhat the observer at 3 sees of the sessions and the tables in the end:"
    )?;
    Ok(())
}

// What the observer sees of the monitors in the end, side by side.
fn print_end<S: Store, T: Store>(
    rt: &(impl Print + AllocGlobal),
    left: &[Session<Rung>],
    left_store: &S,
    right: &[Session<Rung>],
    right_store: &T,
) -> anyhow::Result<()> {
    let heap = rt.alloc();
    let records = records();
    let left_lines = show_monitor(heap, observer(), left, &records, left_store)?;
    let right_lines = show_monitor(heap, observer(), right, &records, right_store)?;
    println!(rt; "{:<40}right", "left")?;
    for (left, right) in left_lines.iter().zip(&right_lines) {
        println!(rt; "{left:<40}{right}")?;
    }
    expect_same(&left_lines, &right_lines)?;
    println!(rt; "\nBoth are the same.")?;
    Ok(())
}

fn print_played(
    rt: &(impl Print + AllocGlobal),
    left_events: &[Event<Rung>],
    left_places: &[Place<Rung>],
    right_events: &[Event<Rung>],
    right_places: &[Place<Rung>],
) -> anyhow::Result<()> {
    let heap = rt.alloc();
    let left = left_requests();
    let right = right_requests();
    println!(rt; "{INTRODUCTION}")?;
    print_history(rt, "left", &left, left_events, left_places)?;
    print_history(rt, "right", &right, right_events, right_places)?;
    let left_lines = show_history(heap, observer(), &left, left_events, left_places)?;
    let right_lines = show_history(heap, observer(), &right, right_events, right_places)?;
    print_requests(rt, &left_lines, &right_lines)
}

fn run(rt: &(impl Print + AllocGlobal)) -> anyhow::Result<()> {
    let mut left_rows = [Row::default(); 5];
    let mut right_cells = [Cell::default(); 5];
    let plan = Plan::of(&[3, 2])?;
    let mut left_store = Packed::new(plan, &mut left_rows);
    let mut right_store = Chained::new(plan, &mut right_cells);
    let mut left = [Session::closed(), Session::closed(), Session::closed()];
    let mut right = [Session::closed(), Session::closed(), Session::closed()];
    let mut left_events = [NO_EVENT; 17];
    let mut right_events = [NO_EVENT; 16];
    let mut left_places = [no_place(); 6];
    let mut right_places = [no_place(); 6];
    let (played_left, played_right) = play_both(
        &mut left,
        &mut left_store,
        &mut left_events,
        &mut left_places,
        &mut right,
        &mut right_store,
        &mut right_events,
        &mut right_places,
    );
    played_left?;
    played_right?;
    print_played(rt, &left_events, &left_places, &right_events, &right_places)?;
    print_end(rt, &left, &left_store, &right, &right_store)
}

fn main(rt: HostRuntime) -> anyhow::Result<()> {
    run(&rt)
}
