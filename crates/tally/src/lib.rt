// The report: how many rows each entry has. Inner functions of the watch: what walks the rows asks what its callers have shown.
#![tactic(auto)]

ghost use Rattle.std.specs.Prelude.{◌≡◌};
ghost use Rattle.table.specs.Table.{rows_in};
ghost use Rattle.table.specs.Ready.{Ready};
ghost use Rattle.tally.specs.Tally.{report_of, refused_report};

use chart::Chart;

// A report: the refusal's number, 0 for none; how many entries the chart has; how many rows are in use; how many rows were read for the tallies; and
// for each entry its number of rows, with zeros behind them. In C's layout, for a host in C.
#[repr(C)]
#[derive(Clone, Copy)]
pub struct Report {
    pub refusal: u32,
    pub entries: usize,
    pub rows: usize,
    pub read: usize,
    pub tallies: [usize; 32],
}

// The number of a refusal and nothing else. Constant time.
#[tactic(auto, unfolding(crate::specs::Tally::refused_report))]
pub fn refused(number: u32) -> Report
    ensures { result ≡ refused_report number }
{
    Report {
        refusal: number,
        entries: 0,
        rows: 0,
        read: 0,
        tallies: [0; 32],
    }
}

// The report on the first rows of a table. One walk: a row is read once, counted as read, and counted for its entry.
pub fn count_rows(chart: Chart, table: &[i32], rows: usize) -> Report
    requires { Ready chart rows table.now }
    ensures { result ≡ report_of chart.count (rows_in rows table.now) }
{
    let mut tallies = [0; 32];
    let mut read = 0;
    for i in 0..rows {
        let row = table::row_at(table, i);
        read += 1;
        tallies[row.entry as usize] += 1;
    }
    Report {
        refusal: 0,
        entries: chart.count,
        rows,
        read,
        tallies,
    }
}
