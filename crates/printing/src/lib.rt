// What the listing program and the report program print: the listing of a table, the numbers of rows by entry, or the line of a refusal. Each public function
// accepts every input, and writes nothing where it returns None. The others ask for room at a place of the output, write a text there, and return the place
// behind it. Each byte is written once, with one division by 10 for each digit but the first of a number.
#![tactic(auto)]

ghost use Rattle.std.specs.Prelude.{◌≡◌, ◌∷◌, ◌++◌, ◌+◌, ◌*◌, ◌≤◌, length};
ghost use Rattle.std.proofs.lemmas.List.Edits.{sets};
ghost use Rattle.decimal.specs.Spelling.{spelled_number};
ghost use Rattle.printing.specs.Listing.{row_text, last_field, row_size, listing_length, listing_output, refusal_length, refusal_output};
ghost use Rattle.printing.specs.Report.{tally_size, report_length, report_output};

use decimal::{Instant, Spelled};
use table::Row;

// The most bytes that the lines of a listing, of a report and of a refusal take, however large their numbers are: what an output needs follows from these.
pub const TITLE_SIZE: usize = 31;

pub const ROW_SIZE: usize = 83;

pub const TALLY_SIZE: usize = 42;

pub const TOTAL_SIZE: usize = 27;

pub const REFUSAL_SIZE: usize = 40;

// Writes the listing of the table's first rows at the front of the output and returns the number of bytes, where the table has the rows, and the output room
// for the first line and the longest of each row.
#[tactic(auto, unfolding(crate::specs::Listing::written_where, text::specs::Output::output_where, crate::specs::Listing::listing_fits))]
pub fn write_listing(table: &[i32], rows: usize, out: &mut [u8]) -> Option<usize>
    ensures { (result ≡ listing_length rows table.now out.old) × (out.new ≡ listing_output rows table.now out.old) }
{
    let room = out.len().checked_sub(TITLE_SIZE)?;
    if table.len() / 5 < rows || room / ROW_SIZE < rows {
        return None;
    }
    let mut at = text::write_bytes(b"row\tentry\tleft\tright\tstart\tend\n", out, 0);
    for i in 0..rows {
        at = write_row(table::row_at(table, i), i, out, at);
    }
    Some(at)
}

// Writes the line of a refusal at the front of the output and returns the number of bytes, where the output has room for the longest.
#[tactic(auto, using(crate::proofs::Fields::fields), unfolding(crate::specs::Listing::written_where, text::specs::Output::output_where, crate::specs::Listing::refusal_fits))]
pub fn write_refusal(number: u32, line: u64, out: &mut [u8]) -> Option<usize>
    ensures { (result ≡ refusal_length number line out.old) × (out.new ≡ refusal_output number line out.old) }
{
    if out.len() < REFUSAL_SIZE {
        return None;
    }
    let word = text::write_bytes(b"refused", out, 0);
    let number = write_field(u64::from(number), out, word);
    Some(write_last_field(line, out, number))
}

// Writes the lines of a report at the front of the output and returns the number of bytes: of each entry, which has so many rows, and of the total. The output
// needs room for the longest line of each entry and of the total.
#[tactic(auto, unfolding(crate::specs::Listing::written_where, text::specs::Output::output_where, crate::specs::Report::report_fits))]
pub fn write_report(tallies: &[usize], total: usize, out: &mut [u8]) -> Option<usize>
    ensures { (result ≡ report_length tallies.now total out.old) × (out.new ≡ report_output tallies.now total out.old) }
{
    let room = out.len().checked_sub(TOTAL_SIZE)?;
    if room / TALLY_SIZE < tallies.len() {
        return None;
    }
    let mut at = 0;
    for (e, &n) in tallies.iter().enumerate() {
        at = write_tally(e, n, out, at);
    }
    let word = text::write_bytes(b"total", out, at);
    Some(write_last_field(total as u64, out, word))
}

// Writes the line of entry e, which has n rows.
#[tactic(auto, using(crate::proofs::Fields::fields))]
fn write_tally(e: usize, n: usize, out: &mut [u8], at: usize) -> usize
    requires { at + tally_size ≤ length out.old }
    ensures { (result ≡ at + length (spelled_number e ++ last_field n)) × (out.new ≡ sets out.old at (spelled_number e ++ last_field n)) × (result ≤ at + tally_size) }
{
    let entry = decimal::write_at(e as u64, out, at);
    write_last_field(n as u64, out, entry)
}

// Writes the line of row i.
#[tactic(auto, using(crate::proofs::Fields::few_bytes))]
fn write_row(row: Row, i: usize, out: &mut [u8], at: usize) -> usize
    requires { at + row_size ≤ length out.old }
    ensures { (result ≡ at + length (row_text i row)) × (out.new ≡ sets out.old at (row_text i row)) × (result ≤ at + row_size) }
{
    let number = decimal::write_at(i as u64, out, at);
    let entry = write_field(row.entry, out, number);
    let left = write_field(row.left, out, entry);
    let right = write_field(row.right, out, left);
    let start = write_field(Instant(row.start), out, right);
    let end = write_field(Instant(row.end), out, start);
    out[end] = b'\n';
    end + 1
}

// Writes a tab and x.
fn write_field<T: Spelled>(x: T, out: &mut [u8], at: usize) -> usize
    requires { at + length (9 ∷ T.spelling x) ≤ length out.old }
    ensures { (result ≡ at + length (9 ∷ T.spelling x)) × (out.new ≡ sets out.old at (9 ∷ T.spelling x)) }
{
    out[at] = b'\t';
    decimal::write_at(x, out, at + 1)
}

// Writes a tab, m and the end of the line.
#[tactic(auto, using(crate::proofs::Fields::fields))]
fn write_last_field(m: u64, out: &mut [u8], at: usize) -> usize
    requires { at + length (last_field m) ≤ length out.old }
    ensures { (result ≡ at + length (last_field m)) × (out.new ≡ sets out.old at (last_field m)) }
{
    let number = write_field(m, out, at);
    out[number] = b'\n';
    number + 1
}
