// Closing instants of the watch, the open one and then each later one at which a delayed row is due: entry by entry, the rows that end at the
// instant are appended to the table. A row that is made refers to a row that ends at the instant, or, being delayed, to one that ended so long
// before: the searches begin there wherever the operator lets them. What reads or appends one row takes constant time; each other
// function says what it looks at.
#![tactic(auto)]

ghost use Rattle.std.specs.Prelude.{◌≡◌, [], ◌∷◌, ◌+◌, ◌*◌, ◌≤◌, ◌<◌, eqb, pos, nat_abs, ◌+ℤ◌, length, drop, true};
ghost use Rattle.std.specs.Int.Signed.{le_z, lt_z};
ghost use Rattle.interval.specs.Instants.{eq_z, least};
ghost use Rattle.interval.specs.Conditions.{ending_of};
ghost use Rattle.chart.specs.Charts.{is_usable, entry_fits};
ghost use Rattle.model.specs.Capacity.{capacity};
ghost use Rattle.model.specs.Recognitions.{after};
ghost use Rattle.model.specs.RowSteps.{close_rows, delayed_ends, due_ends};
ghost use Rattle.model.specs.Statements.{NextDue};
ghost use Rattle.table.specs.Table.{cell, stored_row, model_row, rows_in};
ghost use Rattle.table.specs.Ends.{Ordered, ending_before};
ghost use Rattle.table.specs.Operators.{operators_of, entry_operator};
ghost use Rattle.closing.specs.Added.{Appendable, Proper, Settled, Appended, Tried, is_waited, FirstWaited, SerialsFit, serial_row, events_at, event_rows, arm_of, part_of, part_row, is_taken, taken_row, taken_rows, or_rows, delayed_rows, forbids, is_within, absence_rows, top_of, SameTop, next_row, Passed, least_start, is_wanted, pair_of, pair_row, right_from, pairs_of, left_from, pair_rows, latest_start, near_from, near_to, is_later_row, rival_end, limit_by, nearest_pairs, nearest_of, nearest_rows, added_rows};
ghost use Rattle.closing.specs.Closed.{Closable, closed_rows, closed_count, closed_table};

use chart::operator::Kind;
use chart::{Chart, Entry};
use interval::{Edges, Ending, LengthTest, Nearest, Relation};
use state::WatchState;
use table::Row;

// Where rows of an entry are appended: the rows before `first` end before the instant that is closed; those from there to before `end` end
// at it and are of lower entries; `room` rows fit in all. For a delay the rows from `first` to before `end` are those that ended so long before. The
// entry counts from the instant `since`: a row that starts earlier is not appended.
#[derive(Clone, Copy)]
struct Frame {
    first: usize,
    end: usize,
    room: usize,
    entry: i32,
    instant: i32,
    since: i32,
}

// The instant that is closed, the clock mark before which all are, and how many rows fit.
#[derive(Clone, Copy)]
struct Jump {
    instant: i32,
    mark: i32,
    room: usize,
}

// The events of the instant that is closed: the serial of the first and how many there are. Their codes are lent beside, since an array in
// a struct would be copied at each call.
#[derive(Clone, Copy)]
struct Pending {
    first: usize,
    count: usize,
}

// What the entries so far have made: how many rows there are, and the first end behind the instant that a delay among them makes, or the mark if none
// is before it.
#[derive(Clone, Copy)]
struct Made {
    rows: usize,
    next: i32,
}

// Which rows of one operand make a row: all of them, or those that last so long.
#[derive(Clone, Copy)]
enum Taken {
    All,
    Lasting(LengthTest, u32),
}

// What an `after` waits for: its operand, its length, and the instant from which its entry counts.
#[derive(Clone, Copy)]
struct Wait {
    operand: i32,
    length: u32,
    since: i32,
}

// What is wanted of a second row: that it is one of an operand and related to the first row, which is given by its number, start and end.
#[derive(Clone, Copy)]
struct Wanted {
    relation: Relation,
    operand: i32,
    left: usize,
    start: i32,
    end: i32,
}

// What cut and change look for: the operator, its operands, and the place behind the last row that can be r or a rival of r.
#[derive(Clone, Copy)]
struct Sought {
    nearest: Nearest,
    a: i32,
    b: i32,
    to: usize,
}

// Rows from one to before another.
#[derive(Clone, Copy)]
struct Span {
    from: usize,
    to: usize,
}

// Whether an event's code is k.
fn has_code(code: u8, k: u32) -> bool
    ensures { result ≡ eqb code k }
{
    code as u32 == k
}

// Appends a row, if it starts no earlier than its entry counts.
fn push_counted(t: &mut [i32], n: usize, f: Frame, row: Row) -> usize
    requires { (Appendable f n t.old) × (le_z (pos 0) row.entry ≡ true) }
    ensures { Appended f n (model_row row ∷ []) t.old result t.new }
{
    if f.since <= row.start {
        return table::push_row(t, n, f.room, row).unwrap_or(f.room + 1);
    }
    n
}

fn push_event(t: &mut [i32], n: usize, f: Frame, serial: usize) -> usize
    requires { (Appendable f n t.old) × (serial ≤ 1000000) }
    ensures { Appended f n (serial_row (nat_abs f.entry) f.instant serial ∷ []) t.old result t.new }
{
    let row = Row {
        entry: f.entry,
        left: serial as i32,
        right: -1,
        start: f.instant,
        end: f.instant,
    };
    push_counted(t, n, f, row)
}

// event: a row for each pending event of code k. One look at each event.
fn event_rows(t: &mut [i32], n: usize, f: Frame, k: u32, p: Pending, codes: &[u8; 64]) -> usize
    requires { (Appendable f n t.old) × SerialsFit p }
    ensures { Appended f n (event_rows (nat_abs f.entry) f.instant k p codes.now) t.old result t.new }
{
    let room = f.room;
    let pending = p.count;
    let mut count = n;
    let mut j: usize = 0;
    while j < pending {
        let at = j;
        j += 1;
        let code = codes[at];
        if has_code(code, k) {
            count = push_event(t, count, f, p.first + at);
            if room < count {
                return count;
            }
        }
    }
    count
}

// The row that refers to row i alone, as its second operand or as its first; `part` is that row. It ends at the instant, as the part does
// or, if it is delayed, later.
fn part_of(f: Frame, part: Row, i: usize, second: bool) -> Row
    requires { i < 65535 }
    ensures { result ≡ part_of (arm_of second) f part i }
{
    let mut row = part;
    row.entry = f.entry;
    row.end = f.instant;
    if second {
        row.left = -1;
        row.right = i as i32;
        return row;
    }
    row.left = i as i32;
    row.right = -1;
    row
}

fn push_part(t: &mut [i32], n: usize, f: Frame, i: usize, second: bool) -> usize
    requires { (Appendable f n t.old) × (i < n) }
    ensures { Appended f n (part_row (arm_of second) (nat_abs f.entry) f.instant t.old i ∷ []) t.old result t.new }
{
    let part = table::row_at(t, i);
    let row = part_of(f, part, i, second);
    push_counted(t, n, f, row)
}

// Whether a row is one of the operand a and is taken.
fn is_taken(a: i32, taken: Taken, row: Row) -> bool
    ensures { result ≡ is_taken a taken row }
{
    if row.entry != a {
        return false;
    }
    match taken {
        Taken::All => true,
        Taken::Lasting(test, d) => interval::has_length(test, d, row.start, row.end),
    }
}

// The row of row i, if that is taken.
fn push_taken(
    t: &mut [i32],
    n: usize,
    f: Frame,
    a: i32,
    taken: Taken,
    second: bool,
    i: usize,
) -> usize
    requires { (Appendable f n t.old) × (i < n) }
    ensures { Appended f n (taken_row (arm_of second) (nat_abs f.entry) f.instant a taken t.old i) t.old result t.new }
{
    let row = table::row_at(t, i);
    if is_taken(a, taken, row) {
        return push_part(t, n, f, i, second);
    }
    n
}

// One arm of `or`, a length test, or a delay: a row for each of the frame's rows that is one of the operand and taken. One look at each of them.
fn taken_rows(t: &mut [i32], n: usize, f: Frame, a: i32, taken: Taken, second: bool) -> usize
    requires { Appendable f n t.old }
    ensures { Appended f n (taken_rows (arm_of second) (nat_abs f.entry) f.instant a taken f.first f.end t.old) t.old result t.new }
{
    let end = f.end;
    let room = f.room;
    let mut count = n;
    let mut i = f.first;
    while i < end {
        count = push_taken(t, count, f, a, taken, second, i);
        if room < count {
            return count;
        }
        i += 1;
    }
    count
}

// or: the left arm first. Two looks at each new row.
fn or_rows(t: &mut [i32], n: usize, f: Frame, a: i32, b: i32) -> usize
    requires { Appendable f n t.old }
    ensures { Appended f n (or_rows (nat_abs f.entry) f.instant a b f.first f.end t.old) t.old result t.new }
{
    let count = taken_rows(t, n, f, a, Taken::All, false);
    if f.room < count {
        return count;
    }
    taken_rows(t, count, f, b, Taken::All, true)
}

// after: a row for each row of a that ended d before the instant, also an old one. Two binary searches, and one look at each row that ended then.
fn delayed_rows(t: &mut [i32], n: usize, f: Frame, a: i32, d: u32) -> usize
    requires { Appendable f n t.old }
    ensures { Appended f n (delayed_rows (nat_abs f.entry) f.instant a d f.end t.old) t.old result t.new }
{
    let from = interval::earlier_by(f.instant, d);
    let waited = Frame {
        first: table::ending_before(t, f.end, from),
        end: table::ending_by(t, f.end, from),
        room: f.room,
        entry: f.entry,
        instant: f.instant,
        since: f.since,
    };
    taken_rows(t, n, waited, a, Taken::All, false)
}

// The end of a wait of d that row i began, or the limit where that is no later.
fn due_of(t: &[i32], i: usize, d: u32, limit: i32) -> i32
    requires { i * 5 + 5 ≤ length t.now }
    ensures { result ≡ least (cell t.now i 4 +ℤ pos d) limit }
{
    let row = table::row_at(t, i);
    interval::least_delayed(row.end, d, limit)
}

// Whether row i is waited for: it is one of the operand and starts no earlier than the entry counts.
fn is_waited(t: &[i32], i: usize, w: Wait) -> bool
    requires { i * 5 + 5 ≤ length t.now }
    ensures { result ≡ is_waited w.since w.operand t.now i }
{
    let row = table::row_at(t, i);
    if row.entry != w.operand {
        return false;
    }
    w.since <= row.start
}

// The first such row from row i on to before row e, or e. One look at each row up to it, and another at each one of the operand.
fn next_waited(t: &[i32], i: usize, e: usize, w: Wait) -> usize
    requires { (i ≤ e) × (e * 5 ≤ length t.now) }
    ensures { FirstWaited w.since w.operand i e t.now result }
{
    let mut j = next_of(t, i, e, w.operand);
    while j < e {
        if is_waited(t, j, w) {
            return j;
        }
        j = next_of(t, j + 1, e, w.operand);
    }
    j
}

// The first end behind `last` of a wait that a row began, or the limit if none is before it. A binary search finds the first row at whose end a wait
// would end behind `last`: mostly it is waited for, or its wait would reach the limit, and so those of all rows behind it. Otherwise a second search, and what
// `next_waited` looks at of the rows whose wait would end before the limit.
fn next_end(t: &[i32], n: usize, w: Wait, last: i32, limit: i32) -> i32
    requires { Settled (last +ℤ pos 1) n t.now × (n * 5 ≤ length t.now) × (lt_z last limit ≡ true) × (le_z (pos 0) w.operand ≡ true) }
    ensures { NextDue (delayed_ends w.since (rows_in n t.now) (after (nat_abs w.operand) w.length)) (last +ℤ pos 1) limit result }
{
    let d = w.length;
    let first = table::ending_by(t, n, interval::earlier_by(last, d));
    if n <= first {
        return limit;
    }
    let due = due_of(t, first, d, limit);
    if is_waited(t, first, w) {
        return due;
    }
    if due == limit {
        return limit;
    }
    let end = table::ending_before(t, n, interval::earlier_by(limit, d));
    let i = next_waited(t, first, end, w);
    if end <= i {
        return limit;
    }
    due_of(t, i, d, limit)
}

// Whether row j is one of entry b and forbids the interval of row r.
fn is_forbidding_row(t: &[i32], j: usize, b: i32, edges: Edges, r: Row) -> bool
    requires { j * 5 + 5 ≤ length t.now }
    ensures { result ≡ forbids edges b r.start r.end t.now j }
{
    let s = table::row_at(t, j);
    if s.entry != b {
        return false;
    }
    interval::is_forbidding(edges, r.start, r.end, s.start, s.end)
}

// Whether a row stands before place j that ends at start or later.
fn is_within(t: &[i32], j: usize, start: i32) -> bool
    requires { j * 5 ≤ length t.now }
    ensures { result ≡ is_within start t.now j }
{
    if j == 0 {
        return false;
    }
    let row = table::row_at(t, j - 1);
    start <= row.end
}

// The place behind the last of the first n rows that is one of b, or 0. One look at each row behind it.
fn top_of(t: &[i32], n: usize, b: i32) -> usize
    requires { n * 5 ≤ length t.now }
    ensures { result ≡ top_of b n t.now }
{
    let mut j = top_in_fours(t, n, b);
    while 0 < j {
        if is_of(t, j - 1, b) {
            return j;
        }
        j -= 1;
    }
    j
}

// The same search, four rows to a turn, as in `pass_fours`; where none is found, up to three rows are left.
fn top_in_fours(t: &[i32], n: usize, b: i32) -> usize
    requires { n * 5 ≤ length t.now }
    ensures { SameTop b n t.now result }
{
    let mut j = n;
    while 4 <= j {
        if is_of(t, j - 1, b) {
            return j;
        }
        if is_of(t, j - 2, b) {
            return j - 1;
        }
        if is_of(t, j - 3, b) {
            return j - 2;
        }
        if is_of(t, j - 4, b) {
            return j - 3;
        }
        j -= 4;
    }
    j
}

// -[] -][ -[[ -]]: the new rows of a that no row of b forbids. Where there is a new row of a, the rows behind the last one of b are passed once.
// Each candidate then looks back at the rows that end at its start or later, up to the first forbidding one.
fn absence_rows(t: &mut [i32], n: usize, f: Frame, edges: Edges, a: i32, b: i32) -> usize
    requires { Appendable f n t.old }
    ensures { Appended f n (absence_rows edges (nat_abs f.entry) f.instant a b f.first f.end t.old) t.old result t.new }
{
    let end = f.end;
    let room = f.room;
    let mut i = first_of(t, f.first, end, a);
    if end <= i {
        return n;
    }
    let top = top_of(t, end, b);
    let mut count = n;
    'candidates: while i < end {
        let r = i;
        i += 1;
        if is_of(t, r, a) {
            let row = table::row_at(t, r);
            let mut j = top;
            while is_within(t, j, row.start) {
                j -= 1;
                if is_forbidding_row(t, j, b, edges, row) {
                    continue 'candidates;
                }
            }
            count = push_part(t, count, f, r, false);
            if room < count {
                return count;
            }
        }
    }
    count
}

// Whether a row is what is wanted.
fn is_wanted(w: Wanted, s: Row) -> bool
    ensures { result ≡ is_wanted w s }
{
    if s.entry != w.operand {
        return false;
    }
    let c = w.relation;
    interval::is_related(c, w.start, w.end, s.start, s.end)
}

// The row of a pair, of which the second row is row i, given as s.
fn pair_of(f: Frame, w: Wanted, s: Row, i: usize) -> Row
    requires { (w.left < 65535) × (i < 65535) }
    ensures { result ≡ pair_of f w s i }
{
    let mut row = s;
    row.entry = f.entry;
    row.left = w.left as i32;
    row.right = i as i32;
    row.start = interval::least_start(w.start, s.start);
    row.end = interval::greatest_end(w.end, s.end);
    row
}

// The row of a pair, row i being what is wanted.
fn push_pair(t: &mut [i32], n: usize, f: Frame, w: Wanted, i: usize) -> usize
    requires { (Appendable f n t.old) × (w.left < n) × (i < n) × (is_wanted w (stored_row t.old i) ≡ true) }
    ensures { Appended f n (pair_row w.relation (nat_abs f.entry) w.operand w.left w.start w.end t.old i) t.old result t.new }
{
    let s = table::row_at(t, i);
    let row = pair_of(f, w, s, i);
    push_counted(t, n, f, row)
}

// Where the search for s begins, given r: old rows s are looked at only where s may end first and r is new.
fn right_from(c: Relation, first: usize, r: usize) -> usize
    ensures { result ≡ right_from c first r }
{
    let ending = interval::ending_of(c);
    match ending {
        Ending::Before => first,
        Ending::Within => first,
        Ending::Together => first,
        Ending::Either => if first <= r { 0 } else { first },
    }
}

// The pairs of row r. One look at each new row; at all rows where s may be old and r is new.
fn pairs_with(t: &mut [i32], n: usize, f: Frame, c: Relation, b: i32, r: usize) -> usize
    requires { (Appendable f n t.old) × (r < f.end) }
    ensures { Appended f n (pairs_of c (nat_abs f.entry) b f.first f.end t.old r) t.old result t.new }
{
    let left = table::row_at(t, r);
    let w = Wanted {
        relation: c,
        operand: b,
        left: r,
        start: left.start,
        end: left.end,
    };
    let end = f.end;
    let room = f.room;
    let mut count = n;
    let mut s = right_from(c, f.first, r);
    while s < end {
        let i = s;
        s += 1;
        let row = table::row_at(t, i);
        if is_wanted(w, row) {
            count = push_pair(t, count, f, w, i);
            if room < count {
                return count;
            }
        }
    }
    count
}

// The next row of entry a from row i on, or n, where many rows may lie between: at once where i is n, as it mostly is, no partner being new.
// One look at each row up to it.
fn next_of(t: &[i32], i: usize, n: usize, a: i32) -> usize
    requires { (i ≤ n) × (n * 5 ≤ length t.now) }
    ensures { result ≡ next_row a i n t.now }
{
    if n <= i {
        return i;
    }
    let r = pass_fours(t, i, n, a);
    first_of(t, r, n, a)
}

// The same search row by row, which is quicker where few rows are left.
fn first_of(t: &[i32], i: usize, n: usize, a: i32) -> usize
    requires { (i ≤ n) × (n * 5 ≤ length t.now) }
    ensures { result ≡ next_row a i n t.now }
{
    let mut r = i;
    while r < n {
        if is_of(t, r, a) {
            return r;
        }
        r += 1;
    }
    r
}

// The same search, four rows to a turn, which spares the steps of the loop; where none is found, up to three rows are left.
fn pass_fours(t: &[i32], i: usize, n: usize, a: i32) -> usize
    requires { (i ≤ n) × (n * 5 ≤ length t.now) }
    ensures { Passed a i n t.now result }
{
    let mut r = i;
    while r + 4 <= n {
        if is_of(t, r, a) {
            return r;
        }
        if is_of(t, r + 1, a) {
            return r + 1;
        }
        if is_of(t, r + 2, a) {
            return r + 2;
        }
        if is_of(t, r + 3, a) {
            return r + 3;
        }
        r += 4;
    }
    r
}

// Whether row i is one of entry a.
fn is_of(t: &[i32], i: usize, a: i32) -> bool
    requires { i * 5 + 5 ≤ length t.now }
    ensures { result ≡ eq_z (cell t.now i 0) a }
{
    let row = table::row_at(t, i);
    row.entry == a
}

// The least start of the rows of b from row s, which is one, to before row n. One look at each of these rows.
fn least_start(t: &[i32], s: usize, n: usize, b: i32) -> i32
    requires { (s < n) × (n * 5 ≤ length t.now) }
    ensures { result ≡ least_start b s n t.now }
{
    let first = table::row_at(t, s);
    let mut least = first.start;
    let mut i = s;
    while i < n {
        let row = table::row_at(t, i);
        i += 1;
        if row.entry == b {
            least = interval::least_start(least, row.start);
        }
    }
    least
}

// Where the search for r begins. Without a new s, nowhere, but for `and`: one look at each new row. With one, at the new rows, or at the
// first row, or, where r ends at the start of s or later, at the first row that does so for one of the new s: one look at each new row, and
// a binary search.
fn left_from(t: &[i32], f: Frame, c: Relation, b: i32) -> usize
    requires { (f.first ≤ f.end) × (f.end * 5 ≤ length t.now) × Ordered f.first t.now }
    ensures { result ≡ left_from (ending_of c) b f.first f.end t.now }
{
    let end = f.end;
    let ending = interval::ending_of(c);
    let s = next_of(t, f.first, end, b);
    match ending {
        Ending::Before => if s < end { 0 } else { end },
        Ending::Within => if s < end {
            reaching_from(t, f, b, s)
        } else {
            end
        },
        Ending::Together => if s < end { f.first } else { end },
        Ending::Either => if s < end { 0 } else { f.first },
    }
}

// The first row that ends at the least start of the new rows of b or later. One look at each new row, and a binary search.
fn reaching_from(t: &[i32], f: Frame, b: i32, s: usize) -> usize
    requires { (s < f.end) × (f.first ≤ f.end) × (f.end * 5 ≤ length t.now) × Ordered f.first t.now }
    ensures { result ≡ ending_before f.first (least_start b s f.end t.now) t.now }
{
    let least = least_start(t, s, f.end, b);
    table::ending_before(t, f.first, least)
}

// seq, and, meets, overlaps, starts, during, finishes, equals: the pairs of which one row or both are new. One look at each row from where the
// search for r begins, and for each that is one of a, one at each new row; `and` looks at all rows for each new row of a. For meets, overlaps,
// starts and during the search begins at the first row that ends at the least start of the new rows of b or later, found by a binary search;
// for finishes and equals at the new rows. Where no row of b is new, one look at each new row and no more, but for `and`.
fn pair_rows(t: &mut [i32], n: usize, f: Frame, c: Relation, a: i32, b: i32) -> usize
    requires { Appendable f n t.old }
    ensures { Appended f n (pair_rows c (nat_abs f.entry) a b f.first f.end t.old) t.old result t.new }
{
    let end = f.end;
    let room = f.room;
    let mut count = n;
    let first = left_from(t, f, c, b);
    let mut r = next_of(t, first, end, a);
    while r < end {
        count = pairs_with(t, count, f, c, b, r);
        if room < count {
            return count;
        }
        r = next_of(t, r + 1, end, a);
    }
    count
}

// The latest of x and the starts of the rows of b from row i to before row e. One look at each of these rows, the last first, up to one that ends no
// later than the latest start so far, since no row before that starts later.
fn latest_start(t: &[i32], i: usize, e: usize, b: i32, x: i32) -> i32
    requires { (i ≤ e) × (e * 5 ≤ length t.now) × Ordered e t.now × Proper e t.now }
    ensures { result ≡ latest_start b x i e t.now }
{
    let mut latest = x;
    let mut j = e;
    while i < j {
        j -= 1;
        let row = table::row_at(t, j);
        if row.end <= latest {
            return latest;
        }
        if row.entry == b {
            latest = interval::greatest_end(latest, row.start);
        }
    }
    latest
}

// Which rows can be r, row s being the first new row of b. An s' that starts after r ends and ends before s does is an old row, so that there is one
// just where r ends before the latest start of the old rows of b. One look at the rows behind the last old row of b; what `latest_start` looks at, of
// the old rows and of the new ones; two binary searches.
fn between(t: &[i32], f: Frame, b: i32, s: usize) -> Span
    requires { (s ≡ next_row b f.first f.end t.now) × (s < f.end) × (f.first ≤ f.end) × (f.end * 5 ≤ length t.now) × Ordered f.end t.now × Proper f.end t.now }
    ensures { (result.from ≡ near_from b f.first t.now) × (result.to ≡ near_to b f.first f.end t.now) }
{
    let top = top_of(t, f.first, b);
    let earliest = table::row_at(t, 0);
    let old = latest_start(t, 0, top, b, earliest.end);
    let first = table::row_at(t, s);
    let new = latest_start(t, s, f.end, b, first.start);
    Span {
        from: table::ending_before(t, f.first, old),
        to: table::ending_before(t, f.first, new),
    }
}

// Whether a row is one of a that starts no earlier than r and ends later.
fn is_later_row(a: i32, r: Row, row: Row) -> bool
    ensures { result ≡ is_later_row a r row }
{
    if row.entry != a {
        return false;
    }
    r.start <= row.start && r.end < row.end
}

// The end of the first such row from row i to before row e, or x if there is none. One look at each row up to it.
fn rival_end(t: &[i32], i: usize, e: usize, a: i32, r: Row, x: i32) -> i32
    requires { e * 5 ≤ length t.now }
    ensures { result ≡ rival_end a r x i e t.now }
{
    let mut j = i;
    while j < e {
        let row = table::row_at(t, j);
        if is_later_row(a, r, row) {
            return row.end;
        }
        j += 1;
    }
    x
}

// The pairs of a row r with the new rows that are what is wanted and start at the limit or before. One look at each new row.
fn nearest_pairs(t: &mut [i32], n: usize, f: Frame, w: Wanted, limit: i32) -> usize
    requires { (Appendable f n t.old) × (w.left < n) }
    ensures { Appended f n (nearest_pairs (nat_abs f.entry) w limit f.first f.end t.old) t.old result t.new }
{
    let end = f.end;
    let room = f.room;
    let mut count = n;
    let mut s = f.first;
    while s < end {
        let i = s;
        s += 1;
        let row = table::row_at(t, i);
        if row.start <= limit {
            if is_wanted(w, row) {
                count = push_pair(t, count, f, w, i);
                if room < count {
                    return count;
                }
            }
        }
    }
    count
}

// The pairs of row r: for change, only with an s that starts no later than the first rival of r ends. What `nearest_pairs` looks at, and for change
// the rows behind r up to its first rival.
fn nearest_with(t: &mut [i32], n: usize, f: Frame, k: Sought, r: usize) -> usize
    requires { (Appendable f n t.old) × (r < f.end) × (k.to ≤ f.end) }
    ensures { Appended f n (nearest_of k (nat_abs f.entry) f.instant f.first f.end t.old r) t.old result t.new }
{
    let left = table::row_at(t, r);
    let w = Wanted {
        relation: Relation::Seq,
        operand: k.b,
        left: r,
        start: left.start,
        end: left.end,
    };
    let nearest = k.nearest;
    let limit = match nearest {
        Nearest::Cut => f.instant,
        Nearest::Change => rival_end(t, r + 1, k.to, k.a, left, f.instant),
    };
    nearest_pairs(t, n, f, w, limit)
}

// cut, change: the pairs of an r with a new s of which none has a rival. Where no row of b is new, one look at each new row and no more. Otherwise what
// `between` looks at; one look at each row r between the two places that it finds, which are mostly few; and for each of them that is one of a, what
// `nearest_with` looks at.
fn nearest_rows(t: &mut [i32], n: usize, f: Frame, c: Nearest, a: i32, b: i32) -> usize
    requires { (Appendable f n t.old) × Proper f.end t.old }
    ensures { Appended f n (nearest_rows c (nat_abs f.entry) f.instant a b f.first f.end t.old) t.old result t.new }
{
    let end = f.end;
    let s = first_of(t, f.first, end, b);
    if end <= s {
        return n;
    }
    let rows = between(t, f, b, s);
    let to = rows.to;
    if to <= rows.from {
        return n;
    }
    let k = Sought {
        nearest: c,
        a,
        b,
        to,
    };
    let room = f.room;
    let mut count = n;
    let mut r = first_of(t, rows.from, to, a);
    while r < to {
        count = nearest_with(t, count, f, k, r);
        if room < count {
            return count;
        }
        r = first_of(t, r + 1, to, a);
    }
    count
}

// The rows of an `after`, and the first end behind the instant that it makes, or `next` if none is before it. Costs what `next_end` and `delayed_rows` cost.
fn after_rows(t: &mut [i32], f: Frame, a: i32, d: u32, next: i32) -> Made
    requires { Appendable f f.end t.old × Settled (f.instant +ℤ pos 1) f.end t.old × (lt_z f.instant next ≡ true) × (le_z (pos 0) a ≡ true) }
    ensures { Appended f f.end (delayed_rows (nat_abs f.entry) f.instant a d f.end t.old) t.old result.rows t.new × NextDue (delayed_ends f.since (rows_in f.end t.old) (after (nat_abs a) d)) (f.instant +ℤ pos 1) next result.next }
{
    let w = Wait {
        operand: a,
        length: d,
        since: f.since,
    };
    Made {
        next: next_end(t, f.end, w, f.instant, next),
        rows: delayed_rows(t, f.end, f, a, d),
    }
}

// The rows of one entry, by its operator; only a delay makes an end behind the instant, and `next` is the first of these so far, or the mark. Costs what
// that operator's function costs. The structs are written out in the arms: made by a function, they take a mark some instructions more at each entry.
fn entry_rows(t: &mut [i32], f: Frame, e: Entry, p: Pending, codes: &[u8; 64], next: i32) -> Made
    requires { Appendable f f.end t.old × SerialsFit p × (entry_fits (nat_abs f.entry) e ≡ true) × Settled (f.instant +ℤ pos 1) f.end t.old × (lt_z f.instant next ≡ true) }
    ensures { Appended f f.end (added_rows (entry_operator e) (nat_abs f.entry) f.instant p codes.now f.first f.end t.old) t.old result.rows t.new × NextDue (delayed_ends f.since (rows_in f.end t.old) (entry_operator e)) (f.instant +ℤ pos 1) next result.next }
{
    let a = e.a;
    let b = e.b;
    let kind = chart::operator::kind_of(e.op);
    match kind {
        Kind::Event => Made {
            rows: event_rows(t, f.end, f, a, p, codes),
            next,
        },
        Kind::Or => Made {
            rows: or_rows(t, f.end, f, a as i32, b as i32),
            next,
        },
        Kind::Pair(c) => Made {
            rows: pair_rows(t, f.end, f, c, a as i32, b as i32),
            next,
        },
        Kind::Absence(edges) => Made {
            rows: absence_rows(t, f.end, f, edges, a as i32, b as i32),
            next,
        },
        Kind::Length(test) => Made {
            rows: taken_rows(t, f.end, f, a as i32, Taken::Lasting(test, b), false),
            next,
        },
        Kind::After => after_rows(t, f, a as i32, b, next),
        Kind::Nearest(c) => Made {
            rows: nearest_rows(t, f.end, f, c, a as i32, b as i32),
            next,
        },
        Kind::Unknown => Made { rows: f.end, next },
    }
}

// The rows of all entries that end at the instant, in the entries' order, each entry's put in order before the next one refers to them; and when the next
// delayed row is due, behind the instant and before the mark. Costs what the entries' functions cost, and what `ordering::later_start_first` costs
// for each entry's rows; an entry that makes none, as most do at a mark, is passed with one comparison.
fn all_rows(
    chart: Chart,
    since: &[i32; 32],
    t: &mut [i32],
    rows: usize,
    jump: Jump,
    p: Pending,
    codes: &[u8; 64],
) -> Made
    requires { (is_usable chart ≡ true) × Settled jump.instant rows t.old × (rows ≤ jump.room) × (jump.room ≡ capacity (length t.old)) × SerialsFit p × (p.count ≤ length codes.now) × (lt_z jump.instant jump.mark ≡ true) }
    ensures { Tried jump.room rows (drop rows (close_rows jump.instant (events_at jump.instant p codes.now) (operators_of chart) since.now (rows_in rows t.old))) t.old result.rows t.new × (result.rows ≤ jump.room → Settled (jump.instant +ℤ pos 1) result.rows t.new × NextDue (due_ends [] (operators_of chart) since.now (rows_in result.rows t.new)) (jump.instant +ℤ pos 1) jump.mark result.next) }
{
    let count = chart.count;
    let room = jump.room;
    let mut n = rows;
    let mut next = jump.mark;
    let mut i: usize = 0;
    while i < count {
        let e = chart.entries[i];
        let first = n;
        let f = Frame {
            first: rows,
            end: first,
            room,
            entry: i as i32,
            instant: jump.instant,
            since: since[i],
        };
        let made = entry_rows(t, f, e, p, codes, next);
        n = made.rows;
        next = made.next;
        i += 1;
        if first < n {
            if room < n {
                return Made { rows: n, next };
            }
            ordering::later_start_first(t, first, n);
        }
    }
    Made { rows: n, next }
}

// The rows that end before the mark: those of the open instant, to which the pending events belong, and then those of each later instant at which
// one is due; `codes` and `since` are the state's, taken out of it to be lent. Each costs what `all_rows` costs, and each later one brings a row at least; the
// instants between cost nothing.
fn due_rows(
    chart: Chart,
    state: WatchState,
    codes: [u8; 64],
    since: [i32; 32],
    mark: i32,
    t: &mut [i32],
    room: usize,
) -> usize
    requires { Closable chart state mark t.old × (codes ≡ state.codes) × (since ≡ state.since) × (room ≡ capacity (length t.old)) }
    ensures { Tried room state.rows (drop state.rows (closed_rows chart state mark t.old)) t.old result t.new }
{
    let first = state.events - state.pending + 1;
    let mut pending = state.pending;
    let mut instant = state.instant;
    let mut n = state.rows;
    while instant < mark {
        let p = Pending {
            first,
            count: pending,
        };
        let jump = Jump {
            instant,
            mark,
            room,
        };
        let closed = all_rows(chart, &since, t, n, jump, p, &codes);
        n = closed.rows;
        if room < n {
            return n;
        }
        instant = closed.next;
        pending = 0;
    }
    n
}

// Closes every instant from the open one to before the mark: appends, end by end and in each entry by entry, the rows that end there; hands back how
// many rows there are then, or None where they do not fit, and then the table is as it was. Costs what `due_rows` costs, and where the rows do not fit,
// one store for each number behind the old rows. Where no event is pending and no delayed row is due, no row is looked at, but those that `next_end`
// looks at for a delay.
pub fn close(chart: Chart, state: WatchState, mark: i32, table: &mut [i32]) -> Option<usize>
    requires { Closable chart state mark table.old }
    ensures { (result ≡ closed_count chart state mark table.old) × (table.new ≡ closed_table chart state mark table.old) }
{
    let room = table::rows_that_fit(table.len());
    let codes = state.codes;
    let since = state.since;
    let n = due_rows(chart, state, codes, since, mark, table, room);
    if n <= room {
        return Some(n);
    }
    table::zero_part(table, state.rows * 5, room * 5);
    None
}
