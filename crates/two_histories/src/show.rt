// What an observer sees, in words: of each request that was served, and of the sessions and tables at the end. These are texts,
// since those of both histories are compared.
use guarantees::{
    EventView, SessionView, TableView, view_event, view_place, view_request, view_row,
    view_session, view_table,
};
use labels::Rung;
use monitor::{Answer, Event, Request};
use sessions::{Sealed, Session};
use std::alloc::{AllocError, Global};
use stores::{Row, Store};
use tables::{Place, TableRecord};
use wording::show_to;

// A request and what is seen of its answer, with the rows that fill the first places; none where it is not seen at all.
fn show_served(
    heap: Global,
    observer: Rung,
    request: Request<Rung>,
    event: Event<Rung>,
    places: &[Place<Rung>],
) -> Result<Option<String>, AllocError> {
    let asked = show_to(observer, view_request(observer, request));
    let answer = match view_event(observer, request.ask, event) {
        EventView::Unseen => return Ok(None),
        EventView::Above => {
            let line = format!(in heap;
                "{asked} -> not seen: the session is then above {observer}"
            )?;
            return Ok(Some(line));
        }
        EventView::Seen(answer) => answer,
    };
    let mut line = format!(in heap; "{asked} -> {}", show_to(observer, answer))?;
    if let Ok(Answer::Filled(count)) = answer {
        for place in places.iter().take(count) {
            write!(
                line,
                "; {}",
                show_to(observer, view_place(observer, *place))
            )?;
        }
    }
    Ok(Some(line))
}

// The requests of a history that are seen, a line for each. The places of each selection follow those of the one before it.
pub fn show_history(
    heap: Global,
    observer: Rung,
    requests: &[Request<Rung>],
    events: &[Event<Rung>],
    mut places: &[Place<Rung>],
) -> Result<Vec<String>, AllocError> {
    let mut lines = Vec::new(heap);
    for (request, event) in requests.iter().zip(events) {
        if let Some(line) = show_served(heap, observer, *request, *event, places)? {
            lines.push(line)?;
        }
        places = places.get(request.ask.room()..).unwrap_or_default();
    }
    Ok(lines)
}

// What of a request the observer sees, in a word.
pub fn show_extent(observer: Rung, request: Request<Rung>, event: Event<Rung>) -> &'static str {
    match view_event(observer, request.ask, event) {
        EventView::Unseen => "nothing",
        EventView::Above => "made",
        EventView::Seen(_) => "answer",
    }
}

fn show_session(
    heap: Global,
    observer: Rung,
    number: usize,
    session: &Session<Rung>,
) -> Result<String, AllocError> {
    match view_session(observer, session) {
        SessionView::Closed => format!(in heap; "session {number}: closed"),
        SessionView::Above => format!(in heap; "session {number}: above {observer}"),
        SessionView::Open(standing) => format!(in heap;
            "session {number}: label {}, clearance {}",
            standing.label(),
            standing.clearance()
        ),
    }
}

// A row with the labels that its table's record gives its fields.
fn show_row(
    heap: Global,
    observer: Rung,
    record: &TableRecord<Rung>,
    row: Row,
) -> Result<String, AllocError> {
    let place = Place {
        key: row.key,
        first: Sealed::new(record.first, row.first),
        second: Sealed::new(record.second.label_of(row.first), row.second),
    };
    format!(in heap; "  {}", show_to(observer, place))
}

// What is seen of a monitor, a line for each of its sessions, its tables and their rows.
pub fn show_monitor<S: Store>(
    heap: Global,
    observer: Rung,
    sessions: &[Session<Rung>],
    records: &[TableRecord<Rung>],
    store: &S,
) -> Result<Vec<String>, AllocError> {
    let mut lines = Vec::new(heap);
    for (number, session) in sessions.iter().enumerate() {
        lines.push(show_session(heap, observer, number, session)?)?;
    }
    for (table, record) in records.iter().enumerate() {
        match view_table(observer, records, store, table) {
            TableView::Missing => lines.push(format!(in heap; "table {table}: missing")?)?,
            TableView::Hidden => lines.push(format!(in heap; "table {table}: blanked whole")?)?,
            TableView::Rows(count) => {
                lines.push(format!(in heap; "table {table}: {count} rows")?)?;
                let rows = (0..count).filter_map(|place| view_row(
                    observer, records, store, table, place,
                ));
                for row in rows {
                    lines.push(show_row(heap, observer, record, row)?)?;
                }
            }
        }
    }
    Ok(lines)
}
