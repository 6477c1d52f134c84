// What an observer at a label sees: everything else is blanked.
ghost use Rattle.std.specs.Prelude.{◌≡◌};
ghost use Rattle.std.specs.List.{slice_get};
ghost use Rattle.guarantees.specs.Blanking.{blank_sealed, KeepsWhatIsSeen, blank_place, blank_answer, blank_result, blank_ask, blank_request, blank_row, seen_record, view_session as session_view, view_tables, table_view, row_view};
ghost use Rattle.guarantees.specs.Compare.{opens, low, view_event as event_view};

use labels::Label;
use monitor::{Answer, Ask, Event, Request};
use sessions::{Refusal, Sealed, Session, Standing};
use stores::{Row, Store};
use tables::{Place, TableRecord};

// What is seen of a session: that it is closed, how it stands, or merely that it is above the observer's label.
#[derive(Clone, Copy, PartialEq, Eq, Debug)]
pub enum SessionView<L> {
    Closed,
    Open(Standing<L>),
    Above,
}

// What is seen of a table: that there is none of its number, that it is blanked whole, or how many rows it has.
#[derive(Clone, Copy, PartialEq, Eq, Debug)]
pub enum TableView {
    Missing,
    Hidden,
    Rows(usize),
}

// What is seen of a request that was served: nothing, merely that it was made, or its answer or refusal.
#[derive(Clone, Copy, Debug)]
pub enum EventView<L> {
    Unseen,
    Above,
    Seen(Result<Answer<L>, Refusal<L>>),
}

// A sealed value keeps its label, and its value only if that label flows to the observer's; otherwise 0 stands in its place.
pub fn view_sealed<L: Label>(observer: L, sealed: Sealed<L>) -> Sealed<L>
    ensures blanked { result ≡ blank_sealed L.Label.kind observer sealed }
    ensures exact { KeepsWhatIsSeen L.Label.kind observer sealed }
{
    let label = sealed.label();
    if label.flows_to(observer) {
        sealed
    } else {
        Sealed::new(label, 0)
    }
}

pub fn view_place<L: Label>(observer: L, place: Place<L>) -> Place<L>
    ensures { result ≡ blank_place L.Label.kind observer place }
{
    Place {
        key: place.key,
        first: view_sealed(observer, place.first),
        second: view_sealed(observer, place.second),
    }
}

pub fn view_answer<L: Label>(observer: L, answer: Answer<L>) -> Answer<L>
    ensures { result ≡ blank_answer L.Label.kind observer answer }
{
    match answer {
        Answer::Sealed(sealed) => Answer::Sealed(view_sealed(observer, sealed)),
        other => other,
    }
}

fn view_ask<L: Label>(observer: L, ask: Ask<L>) -> Ask<L>
    ensures { result ≡ blank_ask L.Label.kind observer ask }
{
    match ask {
        Ask::Unseal(sealed) => Ask::Unseal(view_sealed(observer, sealed)),
        Ask::Insert(table, first, second) => Ask::Insert(
            table,
            view_sealed(observer, first),
            view_sealed(observer, second),
        ),
        Ask::Update(table, predicate, first, second) => Ask::Update(
            table,
            predicate,
            view_sealed(observer, first),
            view_sealed(observer, second),
        ),
        other => other,
    }
}

pub fn view_request<L: Label>(observer: L, request: Request<L>) -> Request<L>
    ensures { result ≡ blank_request L.Label.kind observer request }
{
    Request {
        session: request.session,
        ask: view_ask(observer, request.ask),
    }
}

// No session is open, or its label flows to the observer's.
fn is_low<L: Label>(observer: L, standing: Option<Standing<L>>) -> bool
    ensures { result ≡ low L.Label.kind observer standing }
{
    match standing {
        None => true,
        Some(standing) => standing.label().flows_to(observer),
    }
}

// A refusal stays as it is.
pub fn view_result<L: Label>(
    observer: L,
    res: Result<Answer<L>, Refusal<L>>,
) -> Result<Answer<L>, Refusal<L>>
    ensures { result ≡ blank_result L.Label.kind observer res }
{
    Ok(view_answer(observer, res?))
}

fn is_opening<L: Label>(ask: Ask<L>) -> bool
    ensures { result ≡ opens ask }
{
    matches!(ask, Ask::Open(_, _))
}

// Nothing is seen of a request outside the observer's label; of one that leaves its session's label above, merely that it was
// made.
pub fn view_event<L: Label>(observer: L, ask: Ask<L>, event: Event<L>) -> EventView<L>
    ensures { result ≡ event_view L.Label.kind observer ask event }
{
    let within = is_opening(ask) || is_low(observer, event.before);
    if !within {
        return EventView::Unseen;
    }
    if !is_low(observer, event.after) {
        return EventView::Above;
    }
    EventView::Seen(view_result(observer, event.answer))
}

pub fn view_session<L: Label>(observer: L, session: &Session<L>) -> SessionView<L>
    ensures { result ≡ session_view L.Label.kind observer session.now }
{
    match session.standing() {
        None => SessionView::Closed,
        Some(standing) => {
            if standing.label().flows_to(observer) {
                SessionView::Open(standing)
            } else {
                SessionView::Above
            }
        }
    }
}

// The second field of a row is blanked as if sealed under the label that its first field gives.
fn view_fields<L: Label>(observer: L, record: TableRecord<L>, row: Row) -> Row
    ensures { result ≡ blank_row L.Label.kind observer «record» row }
{
    let second = Sealed::new(record.second.label_of(row.first), row.second);
    Row {
        key: row.key,
        first: row.first,
        second: view_sealed(observer, second).host_value(),
    }
}

// The record of a table that is not blanked whole.
fn seen_record<L: Label>(
    observer: L,
    records: &[TableRecord<L>],
    table: usize,
) -> Option<TableRecord<L>>
    ensures { result ≡ seen_record L.Label.kind observer (slice_get records.now table) }
{
    let record = *records.get(table)?;
    if record.table.flows_to(observer) {
        Some(record)
    } else {
        None
    }
}

pub fn view_table<L: Label, S: Store>(
    observer: L,
    records: &[TableRecord<L>],
    store: &S,
    table: usize,
) -> TableView
    ensures { result ≡ table_view (slice_get (view_tables L.Label.kind observer records.now (S.Store.tables store.now)) table) }
{
    let Some(count) = store.row_count(table) else {
        return TableView::Missing;
    };
    match seen_record(observer, records, table) {
        None => TableView::Hidden,
        Some(_) => TableView::Rows(count),
    }
}

// The row at a place of a table that is seen, counted from 0.
pub fn view_row<L: Label, S: Store>(
    observer: L,
    records: &[TableRecord<L>],
    store: &S,
    table: usize,
    place: usize,
) -> Option<Row>
    ensures { result ≡ row_view (slice_get (view_tables L.Label.kind observer records.now (S.Store.tables store.now)) table) place }
{
    let record = seen_record(observer, records, table)?;
    let row = store.row(table, place)?;
    Some(view_fields(observer, record, row))
}
