// One line of a chart: its fields on paper, and the entry that it asks for.
ghost use Rattle.std.specs.Prelude.{◌≡◌, ◌≤◌, ◌<◌};
ghost use Rattle.text.specs.Text.{fields, whole};
ghost use Rattle.chart.specs.Records.{parsed_line, second_of, checked_entry, checked_line, first_answer, answer_to};

use crate::Entry;
use crate::operator::{Kind, are_lower, in_range, kind_of, operator_of, takes_length};
use refusal::Refusal;

// What stands in a line: entry number, operator code, operands. An event's second operand is 0.
#[derive(Clone, Copy)]
struct Fields {
    number: u64,
    op: u8,
    a: u64,
    b: u64,
}

// The fields of a line without its byte 10, taken apart. Each byte is looked at twice at most. As the three functions below it is put into its caller, which spares a
// tenth of the instructions of a line.
#[inline(always)]
fn read_fields(s: &[u8]) -> Option<Fields>
    ensures { result ≡ parsed_line (fields s.now) }
{
    let mut fields = s.split(|&b| b == b'\t');
    let number = decimal::read_number(fields.next()?)?;
    let op = operator_of(fields.next()?)?;
    let a = decimal::read_number(fields.next()?)?;
    let b = if op == 0 {
        0
    } else {
        read_second(kind_of(op), fields.next()?)?
    };
    if fields.next().is_some() {
        return None;
    }
    Some(Fields { number, op, a, b })
}

// A second operand: a length, or the number of an entry.
#[inline(always)]
#[tactic(auto, unfolding(crate::specs::Records::second_of))]
fn read_second(k: Kind, s: &[u8]) -> Option<u64>
    ensures { result ≡ second_of k s.now }
{
    if takes_length(k) {
        decimal::read_length(s)
    } else {
        decimal::read_number(s)
    }
}

// The entry that a line asks for, where n entries stand before it. Refusals 4, 6 and 5, in this order.
#[inline(always)]
#[tactic(auto, using(crate::proofs::Records::small), unfolding(crate::specs::Records::checked_entry))]
fn check_entry(n: u64, line: Fields) -> Result<Entry, Refusal>
    requires { n ≤ 32 }
    ensures { result ≡ checked_entry n line }
{
    if line.number != n {
        return Err(Refusal::EntryNotNext);
    }
    let k = kind_of(line.op);
    if !in_range(k, line.a, line.b) {
        return Err(Refusal::OperandOutOfRange);
    }
    if !are_lower(k, n, line.a, line.b) {
        return Err(Refusal::OperandNotLower);
    }
    Ok(Entry {
        op: line.op,
        a: line.a as u32,
        b: line.b as u32,
    })
}

// The same from its bytes, without its byte 10.
#[inline(always)]
#[tactic(auto, unfolding(crate::specs::Records::checked_line))]
fn read_entry(n: usize, s: &[u8]) -> Result<Entry, Refusal>
    requires { n ≤ 32 }
    ensures { result ≡ checked_line n (parsed_line (fields s.now)) }
{
    let line = read_fields(s).ok_or(Refusal::MalformedEntry)?;
    check_entry(n as u64, line)
}

// The entry of the first line of s, where n entries stand before it, and the line's size.
#[tactic(auto, unfolding(crate::specs::Records::first_answer, crate::specs::Records::sized_answer, crate::specs::Records::with_size))]
pub(crate) fn read_first(n: usize, s: &[u8]) -> Result<(Entry, usize), Refusal>
    ensures { result ≡ first_answer n s.now }
{
    if n >= 32 {
        return Err(Refusal::ChartTooLong);
    }
    let size = text::line_size(s).ok_or(Refusal::MalformedEntry)?;
    Ok((read_entry(n, &s[..size - 1])?, size))
}

// A line that has its byte 10 and stands in s without it, where n entries stand before it. A line of 64 bytes or more is refused unread.
#[tactic(auto, unfolding(crate::specs::Records::answer_to))]
pub(crate) fn read_whole(n: usize, s: &[u8]) -> Result<Entry, Refusal>
    requires { n < 32 }
    ensures { result ≡ answer_to n (whole s.now) }
{
    if s.len() >= 64 {
        return Err(Refusal::MalformedEntry);
    }
    read_entry(n, s)
}
