// Forgetting on the caller's table. Inner functions of the watch: each asks what its callers have shown. What reads or writes one row takes
// constant time.
#![tactic(auto)]

ghost use Rattle.std.specs.Prelude.{◌≡◌, false, ◌+◌, ◌*◌, ◌≤◌, ◌<◌, pos, nat_abs, length, set};
ghost use Rattle.std.specs.Int.Signed.{lt_z};
ghost use Rattle.model.specs.RowSteps.{renumber};
ghost use Rattle.table.specs.Table.{cell, put_row, put_rows};
ghost use Rattle.table.specs.Ready.{Ready};
ghost use Rattle.forgetting.specs.Forgetting.{kept_rows, forgotten_table};
ghost use Rattle.forgetting.specs.Walk.{event_in, shift_at, place_at, plain_rows, marked, moved_row, RowsReady, AllLate, HasEntry, Markable, HasMark, Movable, Restorable, Sifted};

use chart::Chart;
use state::WatchState;

// Keeps the rows that start at the floor or later, in their order, with their references renumbered; zeros follow. Returns how many are
// kept. The rows before the first dropped one are only read; then one walk over the rows, in which each row's new place is kept in its
// entry column, and one over those kept, which takes it out again.
pub fn forget(chart: Chart, state: WatchState, table: &mut [i32], floor: i32) -> usize
    requires { Ready chart state.rows table.old }
    ensures { (result ≡ length (kept_rows chart state table.old floor)) × (table.new ≡ forgotten_table chart state table.old floor) }
{
    let rows = state.rows;
    let arities = table::arities_of(chart);
    let first = late_rows(table, rows, floor);
    let kept = keep_rows(&arities, table, first, rows, floor);
    restore(table, first, kept);
    table::zero_part(table, kept * 5, rows * 5);
    kept
}

// How many rows there are before the first that starts before the floor. One look at each of them.
fn late_rows(table: &[i32], rows: usize, floor: i32) -> usize
    requires { (rows ≤ 65535) × (rows * 5 ≤ length table.now) }
    ensures { (result ≤ rows) × AllLate floor result table.now }
{
    for i in 0..rows {
        if is_early(table, i, floor) {
            return i;
        }
    }
    rows
}

// Whether row i starts before the floor.
fn is_early(table: &[i32], i: usize, floor: i32) -> bool
    requires { (i < 65535) × (i * 5 + 5 ≤ length table.now) }
    ensures { result ≡ lt_z (cell table.now i 3) floor }
{
    table[i * 5 + 3] < floor
}

// The walk: a row's place is how many rows are kept before it. Every row passed is marked with how far it moves, for the references to
// it: 32 times the rows dropped so far. One look at each row from the first on.
fn keep_rows(arities: &[u8; 32], table: &mut [i32], first: usize, rows: usize, floor: i32) -> usize
    requires { RowsReady (event_in arities.now) rows table.old × (first ≤ rows) × AllLate floor first table.old }
    ensures { Sifted (event_in arities.now) floor first rows table.old result table.new }
{
    let mut kept = first;
    for i in first..rows {
        let entry = mark_row(table, i, (i - kept) * 32);
        if !is_early(table, i, floor) {
            move_row(table, i, kept, entry, arities[entry] == 0);
            kept += 1;
        }
    }
    kept
}

// Adds a mark to the entry of row i, which is returned.
fn mark_row(table: &mut [i32], i: usize, mark: usize) -> usize
    requires { Markable i mark table.old }
    ensures { (result ≡ nat_abs (cell table.old i 0)) × (table.new ≡ marked i mark table.old) }
{
    let entry = entry_at(table, i);
    put_entry(table, i, entry + mark);
    entry
}

// Writes row i, of this entry, with its references renumbered, at place p, which keeps its mark. The left number of an event's row is a
// serial and stays.
fn move_row(table: &mut [i32], i: usize, p: usize, entry: usize, event: bool)
    requires { Movable event i p entry table.old }
    ensures { table.new ≡ put_row p (moved_row event i p entry table.old) table.old }
{
    let mut row = table::row_at(table, i);
    row.entry = (entry + shift_at(table, p) * 32) as i32;
    if !event {
        row.left = place_of(row.left, table);
        row.right = place_of(row.right, table);
    }
    table::put_row(table, p, row);
}

// Where a reference goes; -1 stays.
fn place_of(z: i32, table: &[i32]) -> i32
    requires { lt_z z (pos 0) ≡ false → HasMark table.now (nat_abs z) }
    ensures { result ≡ renumber (place_at table.now) z }
{
    if z < 0 {
        return z;
    }
    let j = z as usize;
    (j - shift_at(table, j)) as i32
}

// How far row j moves, by its mark.
fn shift_at(table: &[i32], j: usize) -> usize
    requires { HasMark table.now j }
    ensures { result ≡ shift_at table.now j }
{
    entry_at(table, j) / 32
}

// Takes the marks off the rows from the first to before row n. One look at each of them.
fn restore(table: &mut [i32], first: usize, n: usize)
    requires { Restorable first n table.old }
    ensures { table.new ≡ put_rows 0 (plain_rows n table.old) table.old }
{
    for i in first..n {
        let entry = entry_at(table, i);
        put_entry(table, i, entry % 32);
    }
}

// What the entry column of row i holds.
fn entry_at(table: &[i32], i: usize) -> usize
    requires { HasEntry table.now i }
    ensures { result ≡ nat_abs (cell table.now i 0) }
{
    table[i * 5] as usize
}

// Writes the entry column of row i.
fn put_entry(table: &mut [i32], i: usize, n: usize)
    requires { (i * 5 + 5 ≤ length table.old) × (n < 2147483648) }
    ensures { table.new ≡ set table.old (i * 5) (pos n) }
{
    table[i * 5] = n as i32;
}
