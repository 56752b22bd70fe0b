// Two logs that were checked, into one, as they come in pieces again. The definitions are in `specs/`: `Merging` has what is printed, `Turns` how far each call comes.
// Only the instant reached is remembered: an event of the first log is next, else one of the second; else both stand at a mark or at their end, and the earlier mark is next, once
// if both have it.
#![tactic(auto)]

ghost use Rattle.std.specs.Prelude.{◌≡◌, ◌≤◌, length};
ghost use Rattle.std.proofs.lemmas.List.Edits.{sets};
ghost use Rattle.log_line.specs.Log.{line_most};
ghost use Rattle.merging.specs.Turns.{next_of, step_marks, step_of, call_text, steps_of, turn_of, output_of};

use log_line::{Call, LINE_SIZE};

// Whether no more bytes come of the first log, and of the second.
#[derive(Clone, Copy)]
pub struct Ended {
    pub first: bool,
    pub second: bool,
}

// A mark that may follow, with the size of its line.
#[derive(Clone, Copy)]
struct Mark {
    size: usize,
    instant: i64,
}

// The next line of a log: one that comes before any mark, with its size, and the code of an event or none of an opening, which is passed over; or a stop, at a mark
// or, with none, at the end.
#[derive(Clone, Copy)]
enum Next {
    Line(usize, Option<u8>),
    Stop(Option<Mark>),
}

// What merging wants to go on: more of a log, or room in the output; or there is nothing more to do.
#[derive(Clone, Copy, PartialEq, Eq)]
pub enum Want {
    First,
    Second,
    Room,
    Nothing,
}

// One step of merging: how many bytes of each log are used, the call whose line is written, if any, and the instant then.
#[derive(Clone, Copy)]
struct Step {
    first: usize,
    second: usize,
    call: Option<Call>,
    instant: i64,
}

// What some steps came to: what is wanted; how many bytes of each log were used and how many were written; and the instant reached.
#[derive(Clone, Copy)]
pub struct Turn {
    pub want: Want,
    pub first: usize,
    pub second: usize,
    pub written: usize,
    pub instant: i64,
}

// Merges as far as the bytes of the two logs and the room go, from an instant on, and writes at the front of the output. Each byte of the logs is looked at three
// times at most for each time that it is given, and each byte of the output is written once.
pub fn merge_some(instant: i64, ended: Ended, a: &[u8], b: &[u8], out: &mut [u8]) -> Turn
    ensures { (result ≡ turn_of (steps_of ended a.now b.now (length out.old) instant)) × (out.new ≡ output_of (steps_of ended a.now b.now (length out.old) instant) out.old) }
{
    let mut turn = Turn {
        want: Want::Room,
        first: 0,
        second: 0,
        written: 0,
        instant,
    };
    while LINE_SIZE <= out.len() - turn.written {
        match one_step(turn.instant, ended, &a[turn.first..], &b[turn.second..]) {
            Ok(step) => {
                turn.first += step.first;
                turn.second += step.second;
                turn.written += write_text(step.call, &mut out[turn.written..]);
                turn.instant = step.instant;
            }
            Err(want) => return Turn { want, ..turn },
        }
    }
    turn
}

// Writes the line of a call, if there is one, at the front of the output and returns the number of bytes.
fn write_text(call: Option<Call>, out: &mut [u8]) -> usize
    requires { line_most ≤ length out.old }
    ensures { (result ≡ length (call_text call)) × (out.new ≡ sets out.old 0 (call_text call)) × (result ≤ length out.old) }
{
    log_line::write_call(call, out).unwrap_or(0)
}

// One step on the bytes of two logs, or what is wanted in place of one. Each byte of their first lines is looked at twice at most.
#[tactic(auto, unfolding(crate::specs::Turns::step_of))]
fn one_step(instant: i64, ended: Ended, a: &[u8], b: &[u8]) -> Result<Step, Want>
    ensures { result ≡ step_of instant ended a.now b.now }
{
    let first = match next_line(instant, a, ended.first).ok_or(Want::First)? {
        Next::Line(first, code) => {
            return Ok(Step {
                first,
                second: 0,
                call: code.map(Call::Event),
                instant,
            });
        }
        Next::Stop(mark) => mark,
    };
    let second = match next_line(instant, b, ended.second).ok_or(Want::Second)? {
        Next::Line(second, code) => {
            return Ok(Step {
                first: 0,
                second,
                call: code.map(Call::Event),
                instant,
            });
        }
        Next::Stop(mark) => mark,
    };
    step_marks(first, second)
}

// Both logs are stopped: the earlier mark, or one for both, or the end. Constant time.
fn step_marks(first: Option<Mark>, second: Option<Mark>) -> Result<Step, Want>
    ensures { result ≡ step_marks first second }
{
    let (n, m, instant) = match (first, second) {
        (None, None) => return Err(Want::Nothing),
        (Some(s), None) => (s.size, 0, s.instant),
        (None, Some(t)) => (0, t.size, t.instant),
        (Some(s), Some(t)) if s.instant < t.instant => (s.size, 0, s.instant),
        (Some(s), Some(t)) if t.instant < s.instant => (0, t.size, t.instant),
        (Some(s), Some(t)) => (s.size, t.size, s.instant),
    };
    Ok(Step {
        first: n,
        second: m,
        call: Some(Call::Clock(instant)),
        instant,
    })
}

// The next line of a log by the bytes that are there, or none where more are needed. Each of its bytes is looked at twice at most.
fn next_line(instant: i64, s: &[u8], ended: bool) -> Option<Next>
    ensures { result ≡ next_of instant s.now ended }
{
    let Some(size) = text::line_size(s) else {
        return (ended || 64 <= s.len()).then_some(Next::Stop(None));
    };
    let next = match log_line::read_call(&s[..size - 1]) {
        Some(Call::Open(_)) => Next::Line(size, None),
        Some(Call::Event(code)) => Next::Line(size, Some(code)),
        Some(Call::Clock(t)) if !interval::is_mark_refused(instant, t) => {
            Next::Stop(Some(Mark { size, instant: t }))
        }
        Some(Call::Clock(_) | Call::Forget(_)) | None => Next::Stop(None),
    };
    Some(next)
}
