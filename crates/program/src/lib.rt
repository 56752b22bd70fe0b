// The listing program and the report program without their input and output: an input that comes in pieces is played on a watch, and what it comes to is printed.
#![tactic(auto)]

ghost use Rattle.std.specs.Prelude.{◌≡◌, pos, IfOk, cond, ◌∷◌, [], ◌+◌, ◌≤◌, ◌<◌, ◌^◌, length, drop};
ghost use Rattle.refusal.specs.Numbers.{number_of};
ghost use Rattle.text.specs.Output.{rest_length, rest_moved};
ghost use Rattle.text.specs.Text.{whole};
ghost use Rattle.chart.specs.Charts.{read_lines};
ghost use Rattle.model.specs.Capacity.{capacity};
ghost use Rattle.state.specs.State.{empty_state};
ghost use Rattle.log_line.specs.Log.{call_of};
ghost use Rattle.watch.specs.Answers.{answer_of};
ghost use Rattle.watch.specs.Steps.{check_number};
ghost use Rattle.program.specs.Outcomes.{is_empty};
ghost use Rattle.program.specs.Runs.{start_run, refused_run, entry_run, chart_end, answered_run, open_step, state_of, call_step, stepped, narrowed, unformed_run, after_line, after_bytes, is_refused, kept_of, end_run, finished_run, Reached, HasLines, HasFew, settled_run, Printable, printed_length, printed_output};
ghost use Rattle.program.specs.Statements.{bytes_for, whole_count, whole_table, whole_output};

use chart::Chart;
use log_line::Call;
use printing::{REFUSAL_SIZE, ROW_SIZE, TALLY_SIZE};
use refusal::Refusal;
use watch::Watch;

// Where a run is: at the chart's entries, before the log's opening, at the calls after it, or refused, with the refusal's number.
#[derive(Clone, Copy, PartialEq, Eq)]
pub enum Stage {
    Entries,
    Opening,
    Calls,
    Refused(u32),
}

// What is printed of a run that is not refused: the rows, or how many each entry has.
#[derive(Clone, Copy, PartialEq, Eq)]
pub enum Format {
    Listing,
    Report,
}

// A run of the program: its stage; how many lines it has taken, or the line refused; the chart so far; and the watch.
#[derive(Clone, Copy)]
pub struct Run {
    pub stage: Stage,
    pub line: u64,
    pub chart: Chart,
    pub watch: Watch,
}

// A run after some bytes, and how many of them it needs no more.
#[derive(Clone, Copy)]
pub struct Fed {
    pub run: Run,
    pub used: usize,
}

// The run before the first byte.
#[tactic(auto, unfolding(crate::specs::Runs::start_run))]
pub fn start() -> Run
    ensures { result ≡ start_run }
{
    Run {
        stage: Stage::Entries,
        line: 0,
        chart: chart::no_entries(),
        watch: Watch::empty(0),
    }
}

// How many bytes an output needs for what is printed in a format, with a table of so many numbers: those of a refusal, and of each row that it can hold or of
// each of 32 entries. Constant time, and that of finding how many rows fit.
#[tactic(auto, using(model::proofs::Capacity::capacity_most))]
pub fn bytes_for(format: Format, numbers: usize) -> usize
    ensures { result ≡ bytes_for format (capacity numbers) }
{
    match format {
        Format::Listing => REFUSAL_SIZE + table::rows_that_fit(numbers) * ROW_SIZE,
        Format::Report => REFUSAL_SIZE + 32 * TALLY_SIZE,
    }
}

// Plays a whole input on a lent table and writes what the program of this format prints for it at the front of the output: the number of bytes, or None and nothing
// done where the output has less than `bytes_for` says. The cost is that of `feed` and `print`.
pub fn print_whole(format: Format, input: &[u8], table: &mut [i32], out: &mut [u8]) -> Option<usize>
    ensures { (result ≡ whole_count format input.now table.old out.old) × (table.new ≡ whole_table format input.now table.old out.old) × (out.new ≡ whole_output format input.now table.old out.old) }
{
    if out.len() < bytes_for(format, table.len()) {
        return None;
    }
    let fed = start().feed(table, input);
    let last = fed.run.finish(input.len() - fed.used);
    last.print(format, table, out)
}

// Whether a run was refused, so that no further byte matters.
#[tactic(auto, unfolding(crate::specs::Runs::is_refused))]
pub fn is_refused(run: Run) -> bool
    ensures { result ≡ is_refused run.stage }
{
    matches!(run.stage, Stage::Refused(_))
}

impl Run {
    // Takes further bytes: those kept and what came behind them. Each whole line is played; what follows the last byte 10 is left, or refused
    // when it has 64 bytes. Linear in the bytes, and for each line the cost of its call on the watch.
    pub fn feed(self, table: &mut [i32], s: &[u8]) -> Fed
        requires { Reached (record { run = self; table = table.old }) × HasLines self (length s.now + 1) }
        ensures { (record { run = result.run; table = table.new } ≡ after_bytes (record { run = self; table = table.old }) s.now) × (result.used ≤ length s.now) × (drop result.used s.now ≡ kept_of (after_bytes (record { run = self; table = table.old }) s.now) s.now) }
    {
        let mut run = self;
        let mut at: usize = 0;
        while let Some(size) = text::line_size(&s[at..]) {
            if is_refused(run) {
                break;
            }
            run.play_line(table, &s[at..at + size - 1]);
            at += size;
        }
        settled(run, at, s.len())
    }

    // The end of the input, with so many bytes kept. Constant time.
    #[tactic(auto, unfolding(crate::specs::Runs::finished_run))]
    pub fn finish(self, kept: usize) -> Run
        requires { HasLines self 1 × HasFew self }
        ensures { result ≡ finished_run self kept }
    {
        if kept != 0 {
            return unformed_line(self);
        }
        end_of_input(self)
    }

    // Writes what a finished run prints at the front of the output and returns the number of bytes; None where the output is too short. Each byte
    // is written once; for a report the rows are walked before.
    #[tactic(auto, using(watch::proofs::Reading::report_few, watch::proofs::Reading::report_shown), unfolding(crate::specs::Runs::table_length, crate::specs::Runs::table_output, crate::specs::Runs::length_at, crate::specs::Runs::output_at, crate::specs::Runs::is_refused))]
    pub fn print(self, format: Format, table: &[i32], out: &mut [u8]) -> Option<usize>
        requires { Printable format self table.now }
        ensures { (result ≡ printed_length format self table.now out.old) × (out.new ≡ printed_output format self table.now out.old) }
    {
        if let Stage::Refused(number) = self.stage {
            return printing::write_refusal(number, self.line, out);
        }
        match format {
            Format::Listing => printing::write_listing(table, self.watch.state.rows, out),
            Format::Report => {
                let report = self.watch.report_unchecked(self.chart, table);
                let tallies = report.tallies;
                printing::write_report(&tallies[..report.entries], report.rows, out)
            }
        }
    }

    // Plays a line without its byte 10, by the stage.
    #[tactic(auto, unfolding(crate::specs::Runs::line_step, crate::specs::Runs::is_refused, crate::specs::Runs::Holds, crate::specs::Runs::HasLines, crate::specs::Outcomes::call_in))]
    fn play_line(&mut self, table: &mut [i32], s: &[u8])
        requires { Reached (record { run = self.old; table = table.old }) × HasLines self.old 1 × (length s.now < 64) }
        ensures { record { run = self.new; table = table.new } ≡ after_line (record { run = self.old; table = table.old }) (whole s.now) }
    {
        match self.stage {
            Stage::Entries => self.entries_line(s),
            Stage::Opening => self.opening_line(table, s),
            Stage::Calls => self.call_line(table, s),
            Stage::Refused(_) => {}
        }
    }

    // A line of the chart, or the empty line that ends it. Each byte is looked at twice at most.
    #[tactic(auto, using(chart::proofs::Lines::line_added, crate::proofs::Lines::entry_refused), unfolding(crate::specs::Runs::chart_end, crate::specs::Runs::entry_run, crate::specs::Runs::next_run))]
    fn entries_line(&mut self, s: &[u8])
        requires { (self.old.line + 1 < 2 ^ 64) × (self.old.chart.count ≤ 32) × (self.old.stage ≡ Stage.Entries) }
        ensures { self.new ≡ cond (is_empty (whole s.now)) (chart_end self.old) (entry_run self.old (read_lines self.old.chart (whole s.now ∷ []))) }
    {
        if s.is_empty() {
            if self.chart.count == 0 {
                self.refuse(Refusal::NoLine, 1);
                return;
            }
            self.stage = Stage::Opening;
            self.line += 1;
            return;
        }
        match chart::add_line(self.chart, s) {
            Ok(chart) => {
                self.chart = chart;
                self.line += 1;
            }
            Err(fault) => self.refuse(fault.refusal, u64::from(fault.line)),
        }
    }

    // The first line of the log, which opens the watch. It is not put into its caller, where the watch that it makes would cost each line of the log.
    #[inline(never)]
    fn opening_line(&mut self, table: &mut [i32], s: &[u8])
        requires { (self.old.stage ≡ Stage.Opening) × (self.old.line + 1 < 2 ^ 64) × (length s.now < 64) }
        ensures { record { run = self.new; table = table.new } ≡ after_line (record { run = self.old; table = table.old }) (whole s.now) }
    {
        match open_line(self.chart, table, s) {
            Ok(watch) => {
                self.watch = watch;
                self.step(Ok(watch));
            }
            Err(refusal) => self.step(Err(refusal)),
        }
    }

    // A line of the log after its opening, without its byte 10, on a watch and table that are consistent. Each kind of call goes on by itself: one way on for all of them
    // would have the codes of the open instant copied once more for each line.
    #[tactic(auto, using(watch::proofs::Steps::event_passed), unfolding(crate::specs::Runs::call_step))]
    fn call_line(&mut self, table: &mut [i32], s: &[u8])
        requires { (check_number self.old.chart self.old.watch.state table.old ≡ 0) × (self.old.line + 1 < 2 ^ 64) }
        ensures { record { run = self.new; table = table.new } ≡ stepped self.old (call_step (state_of self.old table.old) (call_of s.now)) }
    {
        match log_line::read_call(s) {
            Some(Call::Event(k)) => {
                let outcome = self.watch.event_unchecked(k);
                self.step(outcome);
            }
            Some(Call::Clock(x)) => {
                let outcome = self.watch.clock_unchecked(self.chart, table, narrowed(x));
                self.step(outcome);
            }
            Some(Call::Forget(f)) => {
                let outcome = self.watch.forget_unchecked(self.chart, table, narrowed(f));
                self.step(outcome);
            }
            Some(Call::Open(_)) | None => self.step(Err(Refusal::MalformedCall)),
        }
    }

    // Goes on to the log's next line with the watch that the line's call gives, or is refused at the line. No call alters the entries: they are left where they are,
    // so that their 32 instants are not copied for each line.
    #[tactic(auto, unfolding(crate::specs::Runs::answered_run, crate::specs::Runs::next_run))]
    fn step(&mut self, outcome: Result<Watch, Refusal>)
        requires { (self.old.line + 1 < 2 ^ 64) × IfOk outcome (λ w. (w.state.entries ≡ self.old.watch.state.entries) × (w.state.since ≡ self.old.watch.state.since)) }
        ensures { self.new ≡ answered_run self.old (answer_of self.old.watch.state outcome) }
    {
        match outcome {
            Ok(watch) => {
                let next = watch.state;
                self.stage = Stage::Calls;
                self.line += 1;
                self.watch.state.instant = next.instant;
                self.watch.state.floor = next.floor;
                self.watch.state.events = next.events;
                self.watch.state.rows = next.rows;
                self.watch.state.pending = next.pending;
                self.watch.state.codes.copy_from_slice(&next.codes);
            }
            Err(refusal) => self.refuse(refusal, self.line + 1),
        }
    }

    // Refused at a line.
    #[tactic(auto, unfolding(crate::specs::Runs::refused_run))]
    fn refuse(&mut self, refusal: Refusal, line: u64)
        ensures { self.new ≡ refused_run self.old (number_of refusal) line }
    {
        self.stage = Stage::Refused(refusal.number());
        self.line = line;
    }
}

// A line that lacks its byte 10 or has over 64 bytes. Constant time.
#[tactic(auto, unfolding(crate::specs::Runs::unformed_run, crate::specs::Runs::HasLines, crate::specs::Runs::HasFew, crate::specs::Runs::is_refused))]
fn unformed_line(run: Run) -> Run
    requires { HasLines run 1 × HasFew run }
    ensures { result ≡ unformed_run run.stage run }
{
    let mut next = run;
    match run.stage {
        Stage::Entries => {
            let n = run.chart.count;
            let refusal = if 32 <= n {
                Refusal::ChartTooLong
            } else {
                Refusal::MalformedEntry
            };
            next.refuse(refusal, n as u64 + 1);
        }
        Stage::Opening | Stage::Calls => next.refuse(Refusal::MalformedCall, run.line + 1),
        Stage::Refused(_) => {}
    }
    next
}

// No further line comes. Constant time.
#[tactic(auto, unfolding(crate::specs::Runs::end_run, crate::specs::Runs::HasLines, crate::specs::Runs::is_refused))]
fn end_of_input(run: Run) -> Run
    requires { HasLines run 1 }
    ensures { result ≡ end_run run.stage run }
{
    let mut next = run;
    match run.stage {
        Stage::Entries if run.chart.count == 0 => next.refuse(Refusal::NoLine, 1),
        Stage::Entries | Stage::Opening => next.refuse(Refusal::MalformedCall, run.line + 1),
        Stage::Calls | Stage::Refused(_) => {}
    }
    next
}

// What is left behind the last whole line: kept, or refused where it has 64 bytes; of a run that was refused no byte is kept. Constant time.
#[tactic(auto, unfolding(crate::specs::Runs::settled_run))]
fn settled(run: Run, used: usize, n: usize) -> Fed
    requires { (used ≤ n) × HasLines run 1 × HasFew run }
    ensures { result ≡ settled_run run used n }
{
    if is_refused(run) || 64 <= n - used {
        return Fed {
            run: unformed_line(run),
            used: n,
        };
    }
    Fed { run, used }
}

// The first line of the log, without its byte 10: the watch that it opens. One pass over the table.
#[tactic(auto, using(crate::proofs::Lines::narrowed_open), unfolding(crate::specs::Runs::open_step))]
fn open_line(chart: Chart, table: &mut [i32], s: &[u8]) -> Result<Watch, Refusal>
    ensures { record { answer = answer_of (empty_state (pos 0)) result; table = table.new } ≡ open_step chart table.old (call_of s.now) }
{
    match log_line::read_call(s) {
        Some(Call::Open(o)) => Watch::opening(chart, table, narrowed(o)),
        _ => Err(Refusal::MalformedCall),
    }
}

// A number of the log as an instant; where it is none, another that is none, so that the call refuses it.
#[tactic(auto, unfolding(crate::specs::Runs::narrowed, interval::specs::Instants::is_instant))]
fn narrowed(x: i64) -> i32
    ensures { result ≡ narrowed x }
{
    if !interval::is_instant(x) {
        return 2000000000;
    }
    x as i32
}

// Moves the bytes from one place of the buffer up to another to its front and returns how many they are; 0, and nothing is moved, where they are not
// all in it. One pass over them.
pub fn keep_rest(buf: &mut [u8], from: usize, to: usize) -> usize
    ensures { (result ≡ rest_length from to buf.old) × (buf.new ≡ rest_moved from to buf.old) }
{
    text::keep_rest(buf, from, to)
}
