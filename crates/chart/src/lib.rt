// Charts: the chart value, the reader of a chart on paper, and the check behind refusal 14.
#![tactic(auto)]

ghost use Rattle.std.specs.Prelude.{◌≡◌, ◌<◌};
ghost use Rattle.chart.specs.Charts.{no_entries, with_entry, read_chart, read_added, add_line, read_answer, added_answer, verdict_of, entry_fits, is_usable};

pub mod operator;
pub mod record;

use refusal::Refusal;

// An entry of a chart: its operator's code and its operands a and b. An event's a is its code and its b is 0; the b of a length test or of
// `after` is a length.
#[repr(C)]
#[derive(Clone, Copy)]
pub struct Entry {
    pub op: u8,
    pub a: u32,
    pub b: u32,
}

// The entries 0 to count - 1 are the chart's; the others are blank in a chart that was read.
#[repr(C)]
#[derive(Clone, Copy)]
pub struct Chart {
    pub count: usize,
    pub entries: [Entry; 32],
}

// Why a chart is refused, or lines added to one, and the line at fault, counted from 1; the refusals are those of the numbers 1 to 6.
#[derive(Clone, Copy, Debug, PartialEq, Eq)]
pub struct Fault {
    pub refusal: Refusal,
    pub line: u32,
}

// A refusal 1 to 6 with its line, counted from 1, and a chart of no entries; or 0, 0 and the chart.
#[repr(C)]
#[derive(Clone, Copy)]
pub struct ChartAnswer {
    pub refusal: u32,
    pub line: u32,
    pub chart: Chart,
}

// A refusal and its line without the chart: as in ChartAnswer.
#[repr(C)]
#[derive(Clone, Copy)]
pub struct Verdict {
    pub refusal: u32,
    pub line: u32,
}

impl From<Result<Chart, Fault>> for Verdict {
    ghost from_gives = { λ r v. v ≡ verdict_of (read_answer r) };

    #[tactic(auto, unfolding(crate::specs::Charts::refused_chart))]
    fn from(r: Result<Chart, Fault>) -> Verdict {
        match r {
            Ok(_) => Verdict {
                refusal: 0,
                line: 0,
            },
            Err(f) => Verdict {
                refusal: f.refusal.number(),
                line: f.line,
            },
        }
    }
}

impl From<Result<Chart, Fault>> for ChartAnswer {
    ghost from_gives = { λ r a. a ≡ read_answer r };

    #[tactic(auto, unfolding(crate::specs::Charts::refused_chart))]
    fn from(r: Result<Chart, Fault>) -> ChartAnswer {
        let Verdict { refusal, line } = Verdict::from(r);
        ChartAnswer {
            refusal,
            line,
            chart: r.unwrap_or(no_entries()),
        }
    }
}

impl Chart {
    // Puts an entry behind the last.
    #[tactic(auto, unfolding(crate::specs::Charts::with_entry))]
    fn push(&mut self, e: Entry)
        requires { self.old.count < 32 }
        ensures { self.new ≡ with_entry self.old e }
    {
        self.entries[self.count] = e;
        self.count += 1;
    }
}

#[tactic(auto, unfolding(crate::specs::Charts::no_entries))]
pub fn no_entries() -> Chart
    ensures { result ≡ no_entries }
{
    let blank = Entry { op: 0, a: 0, b: 0 };
    Chart {
        count: 0,
        entries: [blank; 32],
    }
}

// Reads a chart on paper. Linear in the bytes of the first 33 lines; what follows is not looked at.
#[tactic(auto, using(crate::proofs::Parts::read_whole, crate::proofs::Parts::answer_whole))]
pub fn read(s: &[u8]) -> Result<Chart, Fault>
    ensures { read_answer result ≡ read_chart s.now }
{
    read_added(no_entries(), s)
}

// Reads lines whose entries go on from the chart's last. Linear in the bytes of the lines up to the 33rd entry's; what follows is not looked at.
#[tactic(auto, using(crate::proofs::Added::step_refused))]
pub fn read_added(chart: Chart, s: &[u8]) -> Result<Chart, Fault>
    ensures { added_answer chart result ≡ read_added chart s.now }
{
    if s.is_empty() {
        return Err(Fault {
            refusal: Refusal::NoLine,
            line: 1,
        });
    }
    let mut longer = chart;
    let mut line: u32 = 1;
    let mut rest = s;
    while !rest.is_empty() {
        let (entry, size) = record::read_first(longer.count, rest).map_err(|refusal| Fault {
            refusal,
            line,
        })?;
        longer.push(entry);
        line += 1;
        rest = &rest[size..];
    }
    Ok(longer)
}

// Adds the entry of one more line, s without its byte 10, to the chart. Each byte of a line of at most 63 is looked at twice at most;
// a longer line is refused unread. The rest of the cost is constant.
#[tactic(auto, using(crate::proofs::Charts::add_full, crate::proofs::Charts::add_refused, crate::proofs::Charts::add_taken))]
pub fn add_line(mut chart: Chart, s: &[u8]) -> Result<Chart, Fault>
    ensures { read_answer result ≡ add_line chart s.now }
{
    let n = chart.count;
    if n >= 32 {
        return Err(Fault {
            refusal: Refusal::ChartTooLong,
            line: 33,
        });
    }
    let line = n as u32 + 1;
    let entry = record::read_whole(n, s).map_err(|refusal| Fault { refusal, line })?;
    chart.push(entry);
    Ok(chart)
}

// Whether entry n of a chart is as the operator table has it.
#[tactic(auto, unfolding(crate::specs::Charts::entry_fits))]
pub fn entry_fits(e: Entry, n: usize) -> bool
    ensures { result ≡ entry_fits n e }
{
    let k = operator::kind_of(e.op);
    let a = u64::from(e.a);
    let b = u64::from(e.b);
    operator::in_range(k, a, b) && operator::are_lower(k, n as u64, a, b)
}

// Whether a watch may use the chart; where not, calls on a watch refuse it with 14. One look at each entry.
#[tactic(auto, using(crate::proofs::Charts::usable_none, crate::proofs::Charts::usable_over))]
pub fn is_usable(chart: Chart) -> bool
    ensures { result ≡ is_usable chart }
{
    let n = chart.count;
    if n == 0 || n > 32 {
        return false;
    }
    chart.entries[..n]
        .iter()
        .enumerate()
        .all(|(i, e)| entry_fits(*e, i))
}
