// The refusals by name. Their numbers are document 01's, "Who can be turned back, and with which number": the C interface hands them back and the programs print them.
#![tactic(auto)]

ghost use Rattle.std.specs.Prelude.{◌≡◌};
ghost use Rattle.refusal.specs.Numbers.{number_of};

// Why a chart, a log or a call is refused.
#[derive(Clone, Copy, Debug, PartialEq, Eq)]
pub enum Refusal {
    NoLine,
    ChartTooLong,
    MalformedEntry,
    EntryNotNext,
    OperandNotLower,
    OperandOutOfRange,
    MalformedCall,
    InstantRefused,
    TooManyPending,
    TooManyEvents,
    ForgetRefused,
    TableFull,
    Inconsistent,
    UnusableChart,
    NoSuchRow,
    TreeTooLong,
    ForgetMerged,
    OpeningsDiffer,
}

impl Refusal {
    // The refusal's number, 1 to 18.
    pub fn number(self) -> u32
        ensures { result ≡ number_of self }
    {
        match self {
            Refusal::NoLine => 1,
            Refusal::ChartTooLong => 2,
            Refusal::MalformedEntry => 3,
            Refusal::EntryNotNext => 4,
            Refusal::OperandNotLower => 5,
            Refusal::OperandOutOfRange => 6,
            Refusal::MalformedCall => 7,
            Refusal::InstantRefused => 8,
            Refusal::TooManyPending => 9,
            Refusal::TooManyEvents => 10,
            Refusal::ForgetRefused => 11,
            Refusal::TableFull => 12,
            Refusal::Inconsistent => 13,
            Refusal::UnusableChart => 14,
            Refusal::NoSuchRow => 15,
            Refusal::TreeTooLong => 16,
            Refusal::ForgetMerged => 17,
            Refusal::OpeningsDiffer => 18,
        }
    }
}
