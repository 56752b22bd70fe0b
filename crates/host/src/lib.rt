// The C interface: each call of the watch, the chart reader, instants and lengths on paper, and the listing of and the report on a whole input, under the name and the
// layout that include/chronicle.h declares. A call has the contract of the call that it makes. Costs are those of that call. Instants and lengths are in tenths of
// a millisecond.
#![tactic(auto)]

ghost use Rattle.std.specs.Prelude.{◌≡◌};
ghost use Rattle.chart.specs.Charts.{read_chart, verdict_of};
ghost use Rattle.decimal.specs.Spelling.{length_of, instant_of, without_minus, spelled_instant, written_length, written_output};
ghost use Rattle.host.specs.Tenths.{tenths_of};
ghost use Rattle.model.specs.Capacity.{capacity};
ghost use Rattle.program.specs.Statements.{whole_length, whole_table, whole_output};
ghost use Rattle.watch.specs.Steps.{opening_step, check_number, event_step, clock_step, forget_step, add_step, end_rows, tree_step, report_step};

use chart::{Chart, ChartAnswer, Verdict};
use decimal::{Instant, Spelled};
use program::Format;
use refusal::Refusal;
use tally::Report;
use watch::{Addition, Answer, Part, TreeAnswer, Watch};

// Checks a chart on paper: refusal and line, both 0 for a chart taken. Linear in the bytes of the first 33 lines.
#[unsafe(no_mangle)]
pub extern "C" fn chronicle_check_chart(bytes: &[u8]) -> Verdict
    ensures { result ≡ verdict_of (read_chart bytes.now) }
{
    Verdict::from(chart::read(bytes))
}

// Reads a chart on paper. Linear in the bytes of the first 33 lines.
#[unsafe(no_mangle)]
pub extern "C" fn chronicle_read_chart(bytes: &[u8]) -> ChartAnswer
    ensures { result ≡ read_chart bytes.now }
{
    ChartAnswer::from(chart::read(bytes))
}

// What an instant or a length on paper is: 1 and its tenths where it is well formed, else 0 and 0.
#[repr(C)]
#[derive(Clone, Copy)]
pub struct TenthsAnswer {
    pub formed: u32,
    pub tenths: i64,
}

impl From<Option<i64>> for TenthsAnswer {
    ghost from_gives = { λ z a. a ≡ tenths_of z };

    fn from(tenths: Option<i64>) -> TenthsAnswer {
        match tenths {
            Some(tenths) => TenthsAnswer { formed: 1, tenths },
            None => TenthsAnswer {
                formed: 0,
                tenths: 0,
            },
        }
    }
}

// The instant that all the bytes spell, in its range or not. Constant time.
#[unsafe(no_mangle)]
pub extern "C" fn chronicle_read_instant(bytes: &[u8]) -> TenthsAnswer
    ensures { result ≡ tenths_of (instant_of bytes.now) }
{
    TenthsAnswer::from(decimal::read_instant(bytes))
}

// The length that all the bytes spell, in its range or not. Constant time.
#[unsafe(no_mangle)]
#[tactic(auto, using(decimal::proofs::Tenths::length_below), unfolding(decimal::specs::Spelling::without_minus))]
pub extern "C" fn chronicle_read_length(bytes: &[u8]) -> TenthsAnswer
    ensures { result ≡ tenths_of (without_minus (length_of bytes.now)) }
{
    let Some(length) = decimal::read_length(bytes) else {
        return TenthsAnswer::from(None);
    };
    TenthsAnswer::from(Some(length as i64))
}

// Writes an instant as listings have it at the front of the output: the number of bytes, or 0 and nothing written where the output is too short. One division for
// each digit but one.
#[unsafe(no_mangle)]
#[tactic(auto, using(decimal::proofs::Laws::written_or_none))]
pub extern "C" fn chronicle_write_instant(tenths: i32, out: &mut [u8]) -> usize
    ensures { (result ≡ written_length (spelled_instant tenths) out.old) × (out.new ≡ written_output (spelled_instant tenths) out.old) }
{
    Instant(tenths).write(out).unwrap_or(0)
}

// How many rows a table of so many numbers holds. 16 turns of a loop at most, and no division.
#[unsafe(no_mangle)]
pub extern "C" fn chronicle_rows_that_fit(length: usize) -> usize
    ensures { result ≡ capacity length }
{
    table::rows_that_fit(length)
}

// Opens a watch: 14, 8. One look at each entry of the chart, one pass over the table.
#[unsafe(no_mangle)]
pub extern "C" fn chronicle_open(chart: Chart, table: &mut [i32], instant: i32) -> Answer
    ensures { (result ≡ (opening_step chart table.old instant).answer) × (table.new ≡ (opening_step chart table.old instant).table) }
{
    Answer::of(Watch::empty(0), Watch::opening(chart, table, instant))
}

// An event of a code at the open instant: 14, 13, 10, 9. A check, then constant time.
#[unsafe(no_mangle)]
pub extern "C" fn chronicle_event(watch: Watch, chart: Chart, table: &[i32], code: u8) -> Answer
    ensures { result ≡ (event_step chart watch.state table.now code).answer }
{
    Answer::of(watch, watch.event(chart, table, code))
}

// A clock mark: 14, 13, 8, 12. A check, then closing.
#[unsafe(no_mangle)]
pub extern "C" fn chronicle_clock(
    watch: Watch,
    chart: Chart,
    table: &mut [i32],
    instant: i32,
) -> Answer
    ensures { (result ≡ (clock_step chart watch.state table.old instant).answer) × (table.new ≡ (clock_step chart watch.state table.old instant).table) }
{
    Answer::of(watch, watch.clock(chart, table, instant))
}

// A forget: 14, 13, 11. A check, then one walk of the rows.
#[unsafe(no_mangle)]
pub extern "C" fn chronicle_forget(
    watch: Watch,
    chart: Chart,
    table: &mut [i32],
    floor: i32,
) -> Answer
    ensures { (result ≡ (forget_step chart watch.state table.old floor).answer) × (table.new ≡ (forget_step chart watch.state table.old floor).table) }
{
    Answer::of(watch, watch.forget(chart, table, floor))
}

// Adds the entries of lines to the chart: 14, 13, then 1 to 6 with the line. A check, then linear in the bytes of the lines up to the 33rd entry.
#[unsafe(no_mangle)]
pub extern "C" fn chronicle_add_lines(
    watch: Watch,
    chart: Chart,
    table: &[i32],
    bytes: &[u8],
) -> Addition
    ensures { result ≡ add_step chart watch.state table.now bytes.now }
{
    Addition::of(watch, chart, watch.add_lines(chart, table, bytes))
}

// The number that calls on this watch, chart and table are refused with first: 14, 13, or 0. One look at each entry and each row.
#[unsafe(no_mangle)]
pub extern "C" fn chronicle_check(watch: Watch, chart: Chart, table: &[i32]) -> u32
    ensures { result ≡ check_number chart watch.state table.now }
{
    watch.check(chart, table).err().map_or(0, Refusal::number)
}

// The rows that end at an instant: none where the check refuses. A check and two binary searches.
#[unsafe(no_mangle)]
pub extern "C" fn chronicle_rows_ending(watch: Watch, chart: Chart, table: &[i32], end: i32) -> Part
    ensures { result ≡ end_rows chart watch.state table.now end }
{
    watch.rows_ending_at(chart, table, end)
}

// The tree of a row at the front of the output: 14, 13, 15, 16. A check, then at most two steps for each byte of the output.
#[unsafe(no_mangle)]
pub extern "C" fn chronicle_tree(
    watch: Watch,
    chart: Chart,
    table: &[i32],
    row: usize,
    out: &mut [u8],
) -> TreeAnswer
    ensures { (result ≡ (tree_step chart watch.state table.now row out.old).answer) × (out.new ≡ (tree_step chart watch.state table.now row out.old).out) }
{
    TreeAnswer::from(watch.tree(chart, table, row, out))
}

// How many rows each entry has, how many are in use and how many were read to count them: 14, 13. A check, then one walk of the rows.
#[unsafe(no_mangle)]
pub extern "C" fn chronicle_report(watch: Watch, chart: Chart, table: &[i32]) -> Report
    ensures { result ≡ report_step chart watch.state table.now }
{
    watch
        .report(chart, table)
        .unwrap_or_else(|refusal| tally::refused(refusal.number()))
}

// Plays a whole input of the listing program, chart, empty line and log, and writes what the program prints for it: the number of bytes, or 0 and
// nothing done where the output is too short. Costs what the lines' calls cost.
#[unsafe(no_mangle)]
#[tactic(auto, using(program::proofs::Whole::whole_number))]
pub extern "C" fn chronicle_list(input: &[u8], table: &mut [i32], out: &mut [u8]) -> usize
    ensures { (result ≡ whole_length Format.Listing input.now table.old out.old) × (table.new ≡ whole_table Format.Listing input.now table.old out.old) × (out.new ≡ whole_output Format.Listing input.now table.old out.old) }
{
    program::print_whole(Format::Listing, input, table, out).unwrap_or(0)
}

// The same of the report program.
#[unsafe(no_mangle)]
#[tactic(auto, using(program::proofs::Whole::whole_number))]
pub extern "C" fn chronicle_print_report(input: &[u8], table: &mut [i32], out: &mut [u8]) -> usize
    ensures { (result ≡ whole_length Format.Report input.now table.old out.old) × (table.new ≡ whole_table Format.Report input.now table.old out.old) × (out.new ≡ whole_output Format.Report input.now table.old out.old) }
{
    program::print_whole(Format::Report, input, table, out).unwrap_or(0)
}
