// The caller's table of rows: five numbers a row, how many rows fit, and how many end before an instant. Inner functions of the watch: each asks what its
// callers have shown. What reads or writes one row takes constant time.
#![tactic(auto)]

ghost use Rattle.std.specs.Prelude.{◌≡◌, true, [], ◌∷◌, ◌*◌, ◌+◌, ◌≤◌, pos, length, None};
ghost use Rattle.std.specs.Int.Signed.{le_z};
ghost use Rattle.std.specs.Simd.{first_chunks};
ghost use Rattle.chart.specs.Charts.{is_usable};
ghost use Rattle.model.specs.Capacity.{capacity};
ghost use Rattle.table.specs.Table.{stored_row, model_row, put_row, fill, count_in, are_zeros, zeroed};
ghost use Rattle.table.specs.Operators.{entry_operator, arity_of, arities_of};
ghost use Rattle.table.specs.Ends.{Ordered, ending_before, ending_by};

use chart::operator::Shape;
use chart::{Chart, Entry};
use interval::Tenths;

// The most rows that a table holds.
const MOST_ROWS: usize = 65535;

// How many rows a table of `len` numbers holds: a fifth, found without a division for hosts where that is slow. From the largest k down, 2^k rows
// are taken where what is left has room for them. 16 turns; none for 65,535 rows or more.
pub fn rows_that_fit(len: usize) -> usize
    ensures { result ≡ capacity len }
{
    if MOST_ROWS * 5 <= len {
        return MOST_ROWS;
    }
    let mut left = len;
    let mut rows = 0;
    for k in (0..16usize).rev() {
        let numbers = 5 << k;
        if numbers <= left {
            left -= numbers;
            rows += 1 << k;
        }
    }
    rows
}

// A row: five numbers of the table. The entry of a row in use is no negative number.
#[derive(Clone, Copy)]
pub struct Row {
    pub entry: i32,
    pub left: i32,
    pub right: i32,
    pub start: i32,
    pub end: i32,
}

// Row i.
pub fn row_at(t: &[i32], i: usize) -> Row
    requires { i * 5 + 5 ≤ length t.now }
    ensures { result ≡ stored_row t.now i }
{
    let at = i * 5;
    Row {
        entry: t[at],
        left: t[at + 1],
        right: t[at + 2],
        start: t[at + 3],
        end: t[at + 4],
    }
}

// Writes row i. Five stores: where an array of the five is copied, it is made first, which takes half as long again.
pub fn put_row(t: &mut [i32], i: usize, row: Row)
    requires { (i * 5 + 5 ≤ length t.old) × (le_z (pos 0) row.entry ≡ true) }
    ensures { t.new ≡ put_row i (model_row row) t.old }
{
    let at = i * 5;
    t[at] = row.entry;
    t[at + 1] = row.left;
    t[at + 2] = row.right;
    t[at + 3] = row.start;
    t[at + 4] = row.end;
}

// Appends a row to the n there are, where there is room for it: how many there are then. Without room nothing is written.
#[tactic(auto, unfolding(crate::specs::Table::fill))]
pub fn push_row(t: &mut [i32], n: usize, room: usize, row: Row) -> Option<usize>
    requires { (n ≤ room) × (room * 5 ≤ length t.old) × (le_z (pos 0) row.entry ≡ true) }
    ensures { (count_in room result ≡ (fill room n (model_row row ∷ []) t.old).count) × (t.new ≡ (fill room n (model_row row ∷ []) t.old).table) × (room ≤ n → result ≡ None) }
{
    if room <= n {
        return None;
    }
    put_row(t, n, row);
    Some(n + 1)
}

// Fills the numbers from index a to before index e with zeros.
pub fn zero_part(t: &mut [i32], a: usize, e: usize)
    requires { (a ≤ e) × (e ≤ length t.old) }
    ensures { t.new ≡ zeroed a e t.old }
{
    t[a..e].fill(0);
}

// Whether all numbers from index a to before index e are zeros. One look at each of them, also behind one that is not zero: such a loop
// is compiled to one that takes several numbers in a step.
pub fn are_zeros(t: &[i32], a: usize, e: usize) -> bool
    requires { (a ≤ e) × (e ≤ length t.now) }
    ensures { result ≡ are_zeros a e t.now }
{
    t[a..e].iter().fold(true, |zeros, z| zeros & (*z == 0))
}

// How many of the rows end before e; they stand by end. Binary search: at most 17 of 65,535 rows are looked at. e may be wider than an end: the
// beginning of a wait may be earlier than all instants.
pub fn ending_before<T: Tenths>(table: &[i32], rows: usize, e: T) -> usize
    requires { (rows * 5 ≤ length table.now) × Ordered rows table.now }
    ensures { result ≡ ending_before rows (T.tenths e) table.now }
{
    let e = e.tenths();
    stored_rows(table, rows).partition_point(|row| i64::from(row[4]) < e)
}

// How many of the rows end at e or before; as above.
pub fn ending_by<T: Tenths>(table: &[i32], rows: usize, e: T) -> usize
    requires { (rows * 5 ≤ length table.now) × Ordered rows table.now }
    ensures { result ≡ ending_by rows (T.tenths e) table.now }
{
    let e = e.tenths();
    stored_rows(table, rows).partition_point(|row| i64::from(row[4]) <= e)
}

// The first rows, five numbers each. One division by 5, which compilers make a multiplication.
fn stored_rows(table: &[i32], rows: usize) -> &[[i32; 5]]
    requires { rows * 5 ≤ length table.now }
    ensures { result.now ≡ first_chunks 5 rows table.now }
{
    table[..rows * 5].as_chunks().0
}

// How many references the rows of each entry are written with; an event's row has none. One look at each entry in use.
#[tactic(auto, using(chart::proofs::Usable::usable_few))]
pub fn arities_of(chart: Chart) -> [u8; 32]
    requires { is_usable chart ≡ true }
    ensures { result ≡ arities_of chart }
{
    let mut arities = [0; 32];
    for n in 0..chart.count {
        arities[n] = arity_of(chart.entries[n]);
    }
    arities
}

// How many references the rows of an entry are written with.
#[tactic(auto, using(crate::proofs::Operators::shape_arity))]
fn arity_of(e: Entry) -> u8
    ensures { result ≡ arity_of (entry_operator e) }
{
    match chart::operator::shape_of(chart::operator::kind_of(e.op)) {
        Shape::Leaf => 0,
        Shape::Single => 1,
        Shape::Arms => 2,
        Shape::Double => 2,
        Shape::Delayed => 1,
    }
}
