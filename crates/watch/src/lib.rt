// The chronicle watch: a watch by value, its calls, and the caller's table lent to each of them.
#![tactic(auto)]

ghost use Rattle.std.specs.Prelude.{◌≡◌, ◌↔◌, IsOk, pos};
ghost use Rattle.state.specs.State.{empty_state};
ghost use Rattle.table.specs.Table.{rows_in};
ghost use Rattle.tally.specs.Tally.{report_of};
ghost use Rattle.watch.specs.Answers.{number_in, answer_of, addition_of, tree_answer_of, reported};
ghost use Rattle.watch.specs.Steps.{empty_watch, opening_step, check_number, event_own, event_step, clock_own, clock_step, forget_own, forget_step, add_step, end_rows, end_part, tree_step, report_step};

use chart::{Chart, Fault};
use refusal::Refusal;
use state::WatchState;
use tally::Report;

// A watch. What it holds is declared below, so that the crates that close, forget and check are handed it as one value; in C's layout it is
// the same as its state.
#[repr(C)]
#[derive(Clone, Copy)]
pub struct Watch {
    pub state: WatchState,
}

// The watch and the chart after entries were added to both.
#[derive(Clone, Copy)]
pub struct Extended {
    pub watch: Watch,
    pub chart: Chart,
}

// What a call answers: the refusal's number, 0 for none, and the new watch. In C's layout, as the three below.
#[repr(C)]
#[derive(Clone, Copy)]
pub struct Answer {
    pub refusal: u32,
    pub watch: Watch,
}

// What an addition answers: the refusal's number, 0 for none, and its line, counted from the first added line, 0 for none and for 14 and 13; and watch
// and chart to go on with.
#[repr(C)]
#[derive(Clone, Copy)]
pub struct Addition {
    pub refusal: u32,
    pub line: u32,
    pub watch: Watch,
    pub chart: Chart,
}

// Consecutive rows of a table: the number of the first and how many there are.
#[repr(C)]
#[derive(Clone, Copy)]
pub struct Part {
    pub first: usize,
    pub count: usize,
}

// What a call for a tree answers: the refusal's number, 0 for none, and the tree's number of bytes.
#[repr(C)]
#[derive(Clone, Copy)]
pub struct TreeAnswer {
    pub refusal: u32,
    pub length: usize,
}

impl Answer {
    // The answer of a call on the watch given.
    pub fn of(given: Watch, outcome: Result<Watch, Refusal>) -> Answer
        ensures { result ≡ answer_of given.state outcome }
    {
        match outcome {
            Ok(watch) => Answer { refusal: 0, watch },
            Err(refusal) => Answer {
                refusal: refusal.number(),
                watch: given,
            },
        }
    }
}

impl Addition {
    // The answer of an addition to the watch and the chart given.
    pub fn of(watch: Watch, chart: Chart, outcome: Result<Extended, Fault>) -> Addition
        ensures { result ≡ addition_of watch.state chart outcome }
    {
        match outcome {
            Ok(longer) => Addition {
                refusal: 0,
                line: 0,
                watch: longer.watch,
                chart: longer.chart,
            },
            Err(fault) => Addition {
                refusal: fault.refusal.number(),
                line: fault.line,
                watch,
                chart,
            },
        }
    }
}

impl From<Result<usize, Refusal>> for TreeAnswer {
    ghost from_gives = { λ o a. a ≡ tree_answer_of o };

    fn from(outcome: Result<usize, Refusal>) -> TreeAnswer {
        match outcome {
            Ok(length) => TreeAnswer { refusal: 0, length },
            Err(refusal) => TreeAnswer {
                refusal: refusal.number(),
                length: 0,
            },
        }
    }
}

impl Watch {
    // A watch with no rows and no events.
    pub fn empty(instant: i32) -> Watch
        ensures { result ≡ empty_watch instant }
    {
        Watch {
            state: state::empty(instant),
        }
    }

    // Opens a watch on a lent table: all its rows are zeros then. Refused (14, 8): the table as it was.
    // One look at each entry of the chart, one pass over the table.
    #[tactic(auto, using(chart::proofs::Usable::usable_few, model::proofs::Capacity::capacity_fits), unfolding(crate::specs::Steps::opening_step))]
    pub fn opening(chart: Chart, table: &mut [i32], instant: i32) -> Result<Watch, Refusal>
        ensures { (answer_of (empty_state (pos 0)) result ≡ (opening_step chart table.old instant).answer) × (table.new ≡ (opening_step chart table.old instant).table) }
    {
        if !chart::is_usable(chart) {
            return Err(Refusal::UnusableChart);
        }
        if !interval::is_instant(instant) {
            return Err(Refusal::InstantRefused);
        }
        let room = table::rows_that_fit(table.len());
        table::zero_part(table, 0, room * 5);
        Ok(Watch {
            state: state::opened(chart.count, instant),
        })
    }

    // The refusal that calls on this watch, chart and table meet first: 14, 13, or none. One look at each entry and each row.
    #[tactic(auto, unfolding(crate::specs::Steps::check_number))]
    pub fn check(self, chart: Chart, table: &[i32]) -> Result<(), Refusal>
        ensures { number_in result ≡ check_number chart self.state table.now }
    {
        if !chart::is_usable(chart) {
            Err(Refusal::UnusableChart)
        } else if !consistency::is_consistent(chart, self.state, table) {
            Err(Refusal::Inconsistent)
        } else {
            Ok(())
        }
    }

    // An event of code k at the open instant: 14, 13, 10, 9. A check, then constant time.
    #[tactic(auto, unfolding(crate::specs::Steps::event_step, crate::specs::Steps::check_number, crate::specs::Steps::checked))]
    pub fn event(self, chart: Chart, table: &[i32], k: u8) -> Result<Watch, Refusal>
        ensures { answer_of self.state result ≡ (event_step chart self.state table.now k).answer }
    {
        self.check(chart, table)?;
        self.event_unchecked(k)
    }

    // The same without the check: 10, then 9. Constant time.
    #[tactic(auto, unfolding(crate::specs::Steps::event_own))]
    pub fn event_unchecked(self, k: u8) -> Result<Watch, Refusal>
        ensures { answer_of self.state result ≡ event_own self.state k }
    {
        let s = self.state;
        if 1000000 <= s.events {
            return Err(Refusal::TooManyEvents);
        }
        if 64 <= s.pending {
            return Err(Refusal::TooManyPending);
        }
        Ok(Watch {
            state: s.with_event(k),
        })
    }

    // A clock mark: closes the open instant and opens `instant`: 14, 13, 8, 12. A check, then closing.
    #[tactic(auto, unfolding(crate::specs::Steps::clock_step, crate::specs::Steps::check_number, crate::specs::Steps::checked))]
    pub fn clock(self, chart: Chart, table: &mut [i32], instant: i32) -> Result<Watch, Refusal>
        ensures { (answer_of self.state result ≡ (clock_step chart self.state table.old instant).answer) × (table.new ≡ (clock_step chart self.state table.old instant).table) }
    {
        self.check(chart, table)?;
        self.clock_unchecked(chart, table, instant)
    }

    // A clock mark on a watch that is known to be consistent. With nothing pending and no delay in the chart it looks at each entry; otherwise see closing::close.
    #[tactic(auto, using(crate::proofs::Calls::clock_8))]
    pub fn clock_unchecked(
        self,
        chart: Chart,
        table: &mut [i32],
        instant: i32,
    ) -> Result<Watch, Refusal>
        requires { check_number chart self.state table.old ≡ 0 }
        ensures { (answer_of self.state result ≡ (clock_own chart self.state table.old instant).answer) × (table.new ≡ (clock_own chart self.state table.old instant).table) }
    {
        let s = self.state;
        if interval::is_mark_refused(s.instant, instant) {
            return Err(Refusal::InstantRefused);
        }
        let rows = closing::close(chart, s, instant, table).ok_or(Refusal::TableFull)?;
        Ok(Watch {
            state: s.marked(instant, rows),
        })
    }

    // A forget: raises the floor to f: 14, 13, 11. A check, then one walk of the rows.
    #[tactic(auto, unfolding(crate::specs::Steps::forget_step, crate::specs::Steps::check_number, crate::specs::Steps::checked))]
    pub fn forget(self, chart: Chart, table: &mut [i32], f: i32) -> Result<Watch, Refusal>
        ensures { (answer_of self.state result ≡ (forget_step chart self.state table.old f).answer) × (table.new ≡ (forget_step chart self.state table.old f).table) }
    {
        self.check(chart, table)?;
        self.forget_unchecked(chart, table, f)
    }

    // A forget on a watch that is known to be consistent. One walk of the rows.
    #[tactic(auto, using(crate::proofs::Calls::ready), unfolding(crate::specs::Steps::forget_own))]
    pub fn forget_unchecked(self, chart: Chart, table: &mut [i32], f: i32) -> Result<Watch, Refusal>
        requires { check_number chart self.state table.old ≡ 0 }
        ensures { (answer_of self.state result ≡ (forget_own chart self.state table.old f).answer) × (table.new ≡ (forget_own chart self.state table.old f).table) }
    {
        let s = self.state;
        if interval::is_forget_refused(s.floor, s.instant, f) {
            return Err(Refusal::ForgetRefused);
        }
        let rows = forgetting::forget(chart, s, table, f);
        Ok(Watch {
            state: s.raised(f, rows),
        })
    }

    // Adds the entries of lines to the chart, numbered on from the last entry; they count from the open instant: 14, 13 at line 0, then the chart reader's 1 to 6
    // with its line, counted from the first added one. A check, then linear in the bytes of the lines up to the 33rd entry.
    #[tactic(auto, unfolding(crate::specs::Steps::add_step, crate::specs::Steps::add_own))]
    pub fn add_lines(self, chart: Chart, table: &[i32], s: &[u8]) -> Result<Extended, Fault>
        ensures { addition_of self.state chart result ≡ add_step chart self.state table.now s.now }
    {
        self.check(chart, table)
            .map_err(|refusal| Fault { refusal, line: 0 })?;
        let longer = chart::read_added(chart, s)?;
        let state = self.state.extended(longer.count - chart.count);
        Ok(Extended {
            watch: Watch { state },
            chart: longer,
        })
    }

    // The rows that end at `end`, by their numbers, which a host in C can take; refused (14, 13): no row, both numbers 0. A check, then
    // two binary searches.
    #[tactic(auto, using(crate::proofs::Calls::readable, table::proofs::EndParts::ends_low), unfolding(crate::specs::Steps::end_rows))]
    pub fn rows_ending_at(self, chart: Chart, table: &[i32], end: i32) -> Part
        ensures { result ≡ end_rows chart self.state table.now end }
    {
        if self.check(chart, table).is_err() {
            return Part { first: 0, count: 0 };
        }
        let rows = self.state.rows;
        let first = table::ending_before(table, rows, end);
        let past = table::ending_by(table, rows, end);
        Part {
            first,
            count: past - first,
        }
    }

    // The rows that end at `end`, as that part of the lent table; refused (14, 13): an empty part. A check, then two binary searches.
    #[tactic(auto, using(crate::proofs::Reading::part_in_table))]
    pub fn rows_ending<'a>(self, chart: Chart, table: &'a [i32], end: i32) -> &'a [i32]
        ensures { result.now ≡ end_part chart self.state table.now end }
    {
        let part = self.rows_ending_at(chart, table, end);
        let from = part.first * 5;
        let to = from + part.count * 5;
        &table[from..to]
    }

    // How many rows each entry has, how many are in use, and how many were read to count them, those read for the check apart: 14, 13. A check, then one walk of
    // the rows, whatever the number of entries.
    #[tactic(auto, unfolding(crate::specs::Steps::report_step))]
    pub fn report(self, chart: Chart, table: &[i32]) -> Result<Report, Refusal>
        ensures { (reported result ≡ report_step chart self.state table.now) × (IsOk result ↔ (check_number chart self.state table.now ≡ 0)) }
    {
        self.check(chart, table)?;
        Ok(self.report_unchecked(chart, table))
    }

    // The same without the check, on a watch that is known to be consistent. One walk of the rows.
    #[tactic(auto, using(crate::proofs::Calls::ready))]
    pub fn report_unchecked(self, chart: Chart, table: &[i32]) -> Report
        requires { check_number chart self.state table.now ≡ 0 }
        ensures { result ≡ report_of chart.count (rows_in self.state.rows table.now) }
    {
        tally::count_rows(chart, table, self.state.rows)
    }

    // Writes the tree of row i at the front of the output and returns how many bytes it has: 14, 13, 15, 16. A check; then the tree's bytes are counted, so that a
    // refusal leaves the output as it was, with at most one reference followed for each byte of the output and one more; then each byte is written once.
    #[tactic(auto, using(crate::proofs::Calls::ready), unfolding(crate::specs::Steps::tree_step, crate::specs::Steps::tree_own, tree::specs::Tree::length_within))]
    pub fn tree(
        self,
        chart: Chart,
        table: &[i32],
        i: usize,
        out: &mut [u8],
    ) -> Result<usize, Refusal>
        ensures { (tree_answer_of result ≡ (tree_step chart self.state table.now i out.old).answer) × (out.new ≡ (tree_step chart self.state table.now i out.old).out) }
    {
        self.check(chart, table)?;
        let rows = self.state.rows;
        if rows <= i {
            return Err(Refusal::NoSuchRow);
        }
        if tree::tree_length(chart, table, rows, i, out.len()).is_none() {
            return Err(Refusal::TreeTooLong);
        }
        Ok(tree::write_tree(chart, table, rows, i, out))
    }
}
