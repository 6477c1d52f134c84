// What an observer sees returned, in words, with a star in the place of each value that is blanked.
use guarantees::{EventView, view_event, view_place};
use labels::Rung;
use monitor::{Answer, Event, Request};
use std::alloc::{AllocError, Global};
use tables::Place;
use wording::show_to;

// A line for the request of a number, and one for each row of a selection that is seen; they fill the first places.
fn push_event(
    text: &mut String,
    observer: Rung,
    number: usize,
    view: EventView<Rung>,
    places: &[Place<Rung>],
) -> Result<(), AllocError> {
    match view {
        EventView::Unseen => writeln!(text, "{number:>2}  nothing")?,
        EventView::Above => writeln!(text, "{number:>2}  that it was made")?,
        EventView::Seen(answer) => writeln!(text, "{number:>2}  {}", show_to(observer, answer))?,
    }
    if let EventView::Seen(Ok(Answer::Filled(count))) = view {
        for place in places.iter().take(count) {
            writeln!(
                text,
                "    {}",
                show_to(observer, view_place(observer, *place))
            )?;
        }
    }
    Ok(())
}

// What is seen returned by requests 4 to 8, as a text, since that of another run is compared with it.
pub fn show_seen(
    heap: Global,
    observer: Rung,
    requests: &[Request<Rung>],
    events: &[Event<Rung>],
    mut places: &[Place<Rung>],
) -> Result<String, AllocError> {
    let mut text = String::new(heap);
    for (i, (request, event)) in requests.iter().zip(events).enumerate() {
        let number = i + 1;
        if (4..=8).contains(&number) {
            let view = view_event(observer, request.ask, *event);
            push_event(&mut text, observer, number, view, places)?;
        }
        places = places.get(request.ask.room()..).unwrap_or_default();
    }
    Ok(text)
}
