// The log on paper: one line, read as the call that it asks for, and written. The definitions are in `specs/Log.antt`.
#![tactic(auto)]

ghost use Rattle.std.specs.Prelude.{◌≡◌, ◌∷◌, [], ◌++◌, ◌+◌, ◌≤◌, Some, None, cond, length};
ghost use Rattle.std.proofs.lemmas.List.Edits.{sets};
ghost use Rattle.interval.specs.Instants.{is_instant};
ghost use Rattle.decimal.specs.Spelling.{spelled_instant};
ghost use Rattle.log_line.specs.Log.{call_of, answer_of, line_answer, asked_length, asked_output};

use decimal::{Instant, Spelled};

// What a line asks for. An instant is in tenths of a millisecond and may be out of the instants' range; the watch refuses it then.
#[derive(Clone, Copy, PartialEq, Eq)]
pub enum Call {
    Open(i64),
    Event(u8),
    Clock(i64),
    Forget(i64),
}

// The most bytes that a line takes, with its byte 10.
pub const LINE_SIZE: usize = 20;

// The words, each with its tab.
const OPEN: &[u8] = b"open\t";

const EVENT: &[u8] = b"event\t";

const CLOCK: &[u8] = b"clock\t";

const FORGET: &[u8] = b"forget\t";

// The call of a line without its byte 10, where it is of the form. The words differ in their first byte, so that only one is compared further; then one pass
// over a number of at most 12 bytes. No second tab is looked for: what has a tab is no number.
pub fn read_call(s: &[u8]) -> Option<Call>
    ensures { (result ≡ call_of s.now) × (answer_of result ≡ line_answer s.now) }
{
    if let Some(code) = s.strip_prefix(EVENT) {
        let code = decimal::read_number(code)?;
        return u8::try_from(code).ok().map(Call::Event);
    }
    if let Some(instant) = s.strip_prefix(CLOCK) {
        return decimal::read_instant(instant).map(Call::Clock);
    }
    if let Some(instant) = s.strip_prefix(FORGET) {
        return decimal::read_instant(instant).map(Call::Forget);
    }
    if let Some(instant) = s.strip_prefix(OPEN) {
        return decimal::read_instant(instant).map(Call::Open);
    }
    None
}

// Writes the line of a call, with its byte 10, at the front of the output and returns the number of bytes; None, and nothing is written, where the output has no
// room for the longest line, of a call whose number is no instant, and of None, which is what a line that is not of its form reads as. Each byte is written once, with
// one division by 10 for each digit but the first.
#[tactic(auto, using(crate::proofs::Writing::event_few))]
pub fn write_call(call: Option<Call>, out: &mut [u8]) -> Option<usize>
    ensures { (result ≡ asked_length call out.old) × (out.new ≡ asked_output call out.old) }
{
    let call = call?;
    if out.len() < LINE_SIZE {
        return None;
    }
    match call {
        Call::Event(code) => Some(write_line(EVENT, u64::from(code), out)),
        Call::Open(t) => write_instant(OPEN, t, out),
        Call::Clock(t) => write_instant(CLOCK, t, out),
        Call::Forget(t) => write_instant(FORGET, t, out),
    }
}

// Writes the line of a word that an instant follows, where t is one.
#[tactic(auto, using(interval::proofs::Machine::instant_fits, decimal::proofs::Tenths::written_instant_few))]
fn write_instant(word: &[u8], t: i64, out: &mut [u8]) -> Option<usize>
    requires { length word.now + 13 ≤ length out.old }
    ensures { (result ≡ cond (is_instant t) (Some (length (word.now ++ (spelled_instant t ++ (10 ∷ []))))) None) × (out.new ≡ cond (is_instant t) (sets out.old 0 (word.now ++ (spelled_instant t ++ (10 ∷ [])))) out.old) }
{
    if !interval::is_instant(t) {
        return None;
    }
    Some(write_line(word, Instant(t as i32), out))
}

// Writes a word with its tab, the number behind it, and byte 10.
fn write_line<T: Spelled>(word: &[u8], x: T, out: &mut [u8]) -> usize
    requires { length word.now + length (T.spelling x) + 1 ≤ length out.old }
    ensures { (result ≡ length (word.now ++ (T.spelling x ++ (10 ∷ [])))) × (out.new ≡ sets out.old 0 (word.now ++ (T.spelling x ++ (10 ∷ [])))) }
{
    let from = text::write_bytes(word, out, 0);
    let end = decimal::write_at(x, out, from);
    out[end] = b'\n';
    end + 1
}
