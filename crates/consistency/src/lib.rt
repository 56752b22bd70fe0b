// The check behind refusal 13: whether watch and table are consistent with the chart; where not, document 01 calls them out of joint. Inner
// functions of the watch: each asks what its callers have shown. Those on one row take constant time; they are handed rows and limits, but no
// watch and no chart, whose arrays would be copied for each row.
#![tactic(auto)]

ghost use Rattle.std.specs.Prelude.{◌≡◌, true, ◌<◌, ◌≤◌, IfSome, length};
ghost use Rattle.chart.specs.Charts.{all_below, is_usable};
ghost use Rattle.chart.specs.Operators.{kind_of, shape_of};
ghost use Rattle.model.specs.Capacity.{capacity};
ghost use Rattle.model.specs.Consistency.{is_rising};
ghost use Rattle.consistency.specs.Consistency.{are_instants_in_range, are_counts_in_range, are_entries_in_range, is_watch_in_range, is_table_row_consistent, are_consistent};
ghost use Rattle.consistency.specs.Rows.{exchanged, entry_of, part_at, is_within, is_event_row, meets_condition, spans_part, waits_for, spans_parts, is_left_row, is_single_row, is_delayed_row, is_arm_row, is_pair_row, agrees_by, is_row_of};

use chart::operator::{Kind, Shape};
use chart::{Chart, Entry};
use interval::Relation;
use state::WatchState;
use table::Row;

// The right number of a row that refers to one row.
const NONE: i32 = -1;

// What a row is held against: the numbers of the watch, the instant from which the row's entry counts, and the end of the row before it.
#[derive(Clone, Copy)]
struct Limits {
    instant: i32,
    floor: i32,
    since: i32,
    last: i32,
    events: usize,
}

// Whether watch and table are consistent with a chart that a watch may use. One look at each entry's instant; then one walk of the table,
// with constant work for each row in use and one look at each number behind them. A watch that is out of range itself is refused before the walk.
#[tactic(auto, using(model::proofs::Capacity::capacity_fits, chart::proofs::Usable::usable_few, crate::proofs::Theorems::entries_told), unfolding(crate::specs::Consistency::are_consistent))]
pub fn is_consistent(chart: Chart, state: WatchState, table: &[i32]) -> bool
    requires { is_usable chart ≡ true }
    ensures { result ≡ are_consistent chart state table.now }
{
    let room = table::rows_that_fit(table.len());
    is_watch_in_range(state, chart.count)
        && state.rows <= room
        && table::are_zeros(table, state.rows * 5, room * 5)
        && are_rows_consistent(chart, state, table)
}

// Whether the watch's own numbers are as they should be, count being how many entries the chart has.
#[tactic(auto, unfolding(crate::specs::Consistency::is_watch_in_range))]
fn is_watch_in_range(state: WatchState, count: usize) -> bool
    requires { count ≤ 32 }
    ensures { result ≡ is_watch_in_range count state }
{
    are_instants_in_range(state.instant, state.floor)
        && are_counts_in_range(state.pending, state.events)
        && are_entries_in_range(state, count)
}

// Open instant and floor: in range, and the floor not above the open instant.
fn are_instants_in_range(instant: i32, floor: i32) -> bool
    ensures { result ≡ are_instants_in_range instant floor }
{
    interval::is_instant(instant) && interval::is_instant(floor) && floor <= instant
}

// The counts of pending events and of all.
fn are_counts_in_range(pending: usize, events: usize) -> bool
    ensures { result ≡ are_counts_in_range pending events }
{
    pending <= 64 && pending <= events && events <= 1000000
}

// The entries: as many as the chart has, with instants that do not fall, from the first floor to the open instant.
fn are_entries_in_range(state: WatchState, count: usize) -> bool
    requires { count ≤ 32 }
    ensures { result ≡ are_entries_in_range count state }
{
    state.entries == count
        && is_rising(
            interval::first_floor(),
            state.instant,
            &state.since[..count],
        )
}

// Whether instants do not fall, from one to another. One look at each.
fn is_rising(first: i32, end: i32, instants: &[i32]) -> bool
    ensures { result ≡ is_rising first end instants.now }
{
    let mut last = first;
    for x in instants {
        if *x < last {
            return false;
        }
        last = *x;
    }
    last <= end
}

// Whether every row in use is consistent: rows from the first, each read once, its entry and that entry's instant looked up once.
#[tactic(auto, using(model::proofs::Capacity::capacity_fits))]
fn are_rows_consistent(chart: Chart, state: WatchState, t: &[i32]) -> bool
    requires usable { is_usable chart ≡ true }
    requires few { chart.count ≤ 32 }
    requires same { state.entries ≡ chart.count }
    requires fit { state.rows ≤ capacity (length t.now) }
    ensures { result ≡ all_below state.rows (is_table_row_consistent chart state t.now) }
{
    let mut last = i32::MIN;
    for i in 0..state.rows {
        let row = table::row_at(t, i);
        let Some(n) = entry_of(row, state.entries) else {
            return false;
        };
        let limits = Limits {
            instant: state.instant,
            floor: state.floor,
            since: state.since[n],
            last,
            events: state.events,
        };
        if !is_row_of(chart.entries[n], limits, &t[..i * 5], row) {
            return false;
        }
        last = row.end;
    }
    true
}

// The entry of a row, where it is one of so many. A test and a cast here and in `part_at`: with `usize::try_from` the check of rows takes a fifth longer.
#[tactic(auto, unfolding(crate::specs::Rows::entry_of))]
fn entry_of(row: Row, count: usize) -> Option<usize>
    ensures value { result ≡ entry_of row count }
    ensures below { IfSome result (λ n. n < count) }
{
    if row.entry < 0 {
        return None;
    }
    let n = row.entry as usize;
    if n < count { Some(n) } else { None }
}

// Whether a row is consistent, e being its entry in the chart and `lower` the rows before it.
#[tactic(auto, unfolding(crate::specs::Rows::is_row_of))]
fn is_row_of(e: Entry, limits: Limits, lower: &[i32], row: Row) -> bool
    ensures { result ≡ is_row_of e limits lower.now row }
{
    is_within(limits, row) && agrees(e, limits.events, lower, row)
}

// Whether a row starts at the floor or later and no earlier than its entry counts, and ends before the open instant and no earlier than the row
// before it.
#[tactic(auto, unfolding(crate::specs::Rows::is_within))]
fn is_within(limits: Limits, row: Row) -> bool
    ensures { result ≡ is_within limits row }
{
    (limits.floor <= row.start)
        & (limits.since <= row.start)
        & (row.end < limits.instant)
        & (limits.last <= row.end)
}

// Whether a row's references, start, end and condition are as its entry's operator has them. By the shape, so that an operator of a
// known shape adds a case to `meets_condition` alone. An unknown code stands in no chart that a watch may use.
#[tactic(auto, unfolding(crate::specs::Rows::agrees_by))]
fn agrees(e: Entry, events: usize, lower: &[i32], row: Row) -> bool
    ensures { result ≡ agrees_by (shape_of (kind_of e.op)) (kind_of e.op) e.a e.b events lower.now row }
{
    let kind = chart::operator::kind_of(e.op);
    match chart::operator::shape_of(kind) {
        Shape::Leaf => is_event_row(events, row),
        Shape::Single => is_single_row(kind, e.a, e.b, lower, row),
        Shape::Arms => is_arm_row(e.a, e.b, lower, row),
        Shape::Double => is_pair_row(kind, e.a, e.b, lower, row),
        Shape::Delayed => is_delayed_row(e.a, e.b, lower, row),
    }
}

// An event row: a serial 1 to the count, no second reference, start and end equal.
#[tactic(auto, unfolding(crate::specs::Rows::is_event_row))]
fn is_event_row(events: usize, row: Row) -> bool
    ensures { result ≡ is_event_row events row }
{
    1 <= row.left && row.left as usize <= events && row.right == NONE && row.start == row.end
}

// A row of one operand, on the left and of entry a. It starts and ends as the operand does, so that the condition is asked of the row itself,
// before anything is read.
#[tactic(auto, unfolding(crate::specs::Rows::is_single_row))]
fn is_single_row(kind: Kind, a: u32, b: u32, lower: &[i32], row: Row) -> bool
    ensures { result ≡ is_single_row kind a b lower.now row }
{
    meets_condition(kind, b, row, row) && is_left_row(a, lower, row)
}

// A row of one operand, which is the right one where the row has no left.
#[tactic(auto, unfolding(crate::specs::Rows::is_arm_row))]
fn is_arm_row(a: u32, b: u32, lower: &[i32], row: Row) -> bool
    ensures { result ≡ is_arm_row a b lower.now row }
{
    is_left_row(a, lower, row) || is_left_row(b, lower, exchanged(row))
}

// Whether a row refers to one row, on the left and of entry a, and starts and ends as that does.
#[tactic(auto, unfolding(crate::specs::Rows::is_left_row))]
fn is_left_row(a: u32, lower: &[i32], row: Row) -> bool
    ensures { result ≡ is_left_row a lower.now row }
{
    row.right == NONE && part_at(lower, row.left, a).is_some_and(|p| spans_part(row, p))
}

// A row of `after`: its operand on the left and of entry a, which ended d before it. A function of its own: as a case of `is_single_row` it makes the
// check of all rows a quarter slower.
#[tactic(auto, unfolding(crate::specs::Rows::is_delayed_row))]
fn is_delayed_row(a: u32, d: u32, lower: &[i32], row: Row) -> bool
    ensures { result ≡ is_delayed_row a d lower.now row }
{
    row.right == NONE && part_at(lower, row.left, a).is_some_and(|p| waits_for(d, row, p))
}

// A row of two operands.
#[tactic(auto, unfolding(crate::specs::Rows::is_pair_row))]
fn is_pair_row(kind: Kind, a: u32, b: u32, lower: &[i32], row: Row) -> bool
    ensures { result ≡ is_pair_row kind a b lower.now row }
{
    let Some(p) = part_at(lower, row.left, a) else {
        return false;
    };
    let Some(q) = part_at(lower, row.right, b) else {
        return false;
    };
    spans_parts(row, p, q) && meets_condition(kind, b, p, q)
}

// Whether a row's start and end are those of its one part p.
fn spans_part(row: Row, p: Row) -> bool
    ensures { result ≡ spans_part row p }
{
    (row.start == p.start) & (row.end == p.end)
}

// Whether a row starts as its one part p does, and ends d later.
fn waits_for(d: u32, row: Row, p: Row) -> bool
    ensures { result ≡ waits_for d row p }
{
    (row.start == p.start) & interval::is_delayed(p.end, d, row.end)
}

// Whether a row's start and end are those of the rows p and q together.
fn spans_parts(row: Row, p: Row, q: Row) -> bool
    ensures { result ≡ spans_parts row p q }
{
    (row.start == interval::least_start(p.start, q.start))
        & (row.end == interval::greatest_end(p.end, q.end))
}

// The condition of an operator on its parts, b being the length of a length test. An absence's is not asked; of cut and change only that of seq is, no
// rival is looked for; the others have none.
#[tactic(auto, unfolding(crate::specs::Rows::meets_condition))]
fn meets_condition(kind: Kind, b: u32, p: Row, q: Row) -> bool
    ensures { result ≡ meets_condition kind b p q }
{
    match kind {
        Kind::Pair(c) => interval::is_related(c, p.start, p.end, q.start, q.end),
        Kind::Length(c) => interval::has_length(c, b, p.start, p.end),
        Kind::Nearest(_) => interval::is_related(Relation::Seq, p.start, p.end, q.start, q.end),
        Kind::Event | Kind::Or | Kind::Absence(_) | Kind::After | Kind::Unknown => true,
    }
}

// The row that z refers to, where that is one of the lower rows and of entry a. Only a lower row is read.
#[tactic(auto, unfolding(crate::specs::Rows::part_at))]
fn part_at(lower: &[i32], z: i32, a: u32) -> Option<Row>
    ensures { result ≡ part_at lower.now z a }
{
    if z < 0 {
        return None;
    }
    let j = z as usize;
    if lower.len() < j * 5 + 5 {
        return None;
    }
    let part = table::row_at(lower, j);
    if i64::from(part.entry) == i64::from(a) {
        Some(part)
    } else {
        None
    }
}

// The row with left and right exchanged.
fn exchanged(row: Row) -> Row
    ensures { result ≡ exchanged row }
{
    Row {
        left: row.right,
        right: row.left,
        ..row
    }
}
