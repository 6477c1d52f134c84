// A run of requests printed as the host sees it, for every label kind.
use labels::Label;
use monitor::{Answer, Event, Request};
use std::{fmt, io};
use tables::Place;
use wording::show;

// How the line of a request is laid out: in one line where labels are short, with the label before it; otherwise on lines of
// their own for the request, the answer and the label.
#[derive(Clone, Copy)]
pub enum Layout {
    Short,
    Long,
}

fn print_event<L: Label + fmt::Display>(
    rt: &impl Print,
    layout: Layout,
    number: usize,
    request: Request<L>,
    event: Event<L>,
) -> io::Result<()> {
    let label = show(event.after);
    let asked = show(request);
    let answer = show(event.answer);
    match layout {
        Layout::Long => println!(rt;
            "{number:>2}  {asked}\n       -> {answer}\n       label {label}"
        ),
        Layout::Short if event.answer.is_err() => println!(rt;
            "{number:>2}  {label}  {asked}\n       -> {answer}"
        ),
        Layout::Short => println!(rt; "{number:>2}  {label}  {asked} -> {answer}"),
    }
}

// Each request with its number, the session's label after it and its answer, and with its rows on the lines below. Requests,
// events and places are three slices, as the monitor was lent them.
pub fn print_run<L: Label + fmt::Display>(
    rt: &impl Print,
    layout: Layout,
    requests: &[Request<L>],
    events: &[Event<L>],
    mut places: &[Place<L>],
) -> io::Result<()> {
    for (i, (request, event)) in requests.iter().zip(events).enumerate() {
        print_event(rt, layout, i + 1, *request, *event)?;
        if let Ok(Answer::Filled(count)) = event.answer {
            for place in places.iter().take(count) {
                println!(rt; "       {}", show(*place))?;
            }
        }
        places = places.get(request.ask.room()..).unwrap_or_default();
    }
    Ok(())
}
