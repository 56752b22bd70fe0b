// The check of a whole log that comes in pieces, before it is merged: for 7, 17 and 8 alone. The definitions are in `specs/Checks.antt`, what a log is turned away for
// in crate `logs`.
#![tactic(auto)]

ghost use Rattle.std.specs.Prelude.{◌≡◌, ◌+◌, ◌<◌, ◌^◌, length};
ghost use Rattle.log_line.specs.Log.{call_of};
ghost use Rattle.checking.specs.Checks.{start_check, first_check, later_check, check_call, end_check, fed_check, finished_check};

use log_line::Call;
use refusal::Refusal;

// The instants of a log that is open: that of its opening, and the one reached.
#[derive(Clone, Copy, PartialEq, Eq)]
pub struct Instants {
    pub opened: i64,
    pub reached: i64,
}

// Why a log was refused, and its instants up to that line, none where it was its first.
#[derive(Clone, Copy, PartialEq, Eq)]
pub struct Refused {
    pub refusal: Refusal,
    pub instants: Option<Instants>,
}

// A log so far: how many lines it has, or the line refused; and its instants, none before its first line, or why it was refused and its instants up to there.
#[derive(Clone, Copy, PartialEq, Eq)]
pub struct Check {
    pub line: u64,
    pub state: Result<Option<Instants>, Refused>,
}

// A log after some bytes, and how many of them it needs no more.
#[derive(Clone, Copy, PartialEq, Eq)]
pub struct Fed {
    pub check: Check,
    pub used: usize,
}

impl Check {
    // The log before its first byte.
    pub fn start() -> Check
        ensures { result ≡ start_check }
    {
        Check {
            line: 0,
            state: Ok(None),
        }
    }

    // Takes further bytes: those kept and what came behind them. Each whole line is checked; what follows the last byte 10 is left, or refused when it
    // has 64 bytes. Each byte is looked at twice at most.
    pub fn feed(self, s: &[u8]) -> Fed
        requires { self.line + length s.now + 1 < 2 ^ 64 }
        ensures { result ≡ fed_check self s.now }
    {
        let mut check = self;
        let mut rest = s;
        while let Some(size) = text::line_size(rest) {
            check = check.after(log_line::read_call(&rest[..size - 1]));
            rest = &rest[size..];
        }
        if 64 <= rest.len() {
            return Fed {
                check: check.after(None),
                used: s.len(),
            };
        }
        Fed {
            check,
            used: s.len() - rest.len(),
        }
    }

    // The end of the log, with so many bytes kept: no line comes any more, or one that lacks its byte 10. Constant time.
    pub fn finish(self, kept: usize) -> Check
        requires { self.line + 1 < 2 ^ 64 }
        ensures { result ≡ finished_check self kept }
    {
        if kept == 0 && self.state != Ok(None) {
            return self;
        }
        self.after(None)
    }

    // The log after one line more, by the call that it reads as, None where it is not of the form. Constant time, as in all below.
    fn after(self, call: Option<Call>) -> Check
        requires { self.line + 1 < 2 ^ 64 }
        ensures { result ≡ check_call self call }
    {
        let Ok(instants) = self.state else {
            return self;
        };
        let next = match instants {
            None => opened_by(call),
            Some(instants) => instants.after(call),
        };
        Check {
            line: self.line + 1,
            state: next
                .map(Some)
                .map_err(|refusal| Refused { refusal, instants }),
        }
    }
}

// The instants after the first line.
fn opened_by(call: Option<Call>) -> Result<Instants, Refusal>
    ensures { result ≡ first_check call }
{
    match call {
        Some(Call::Open(o)) if interval::is_instant(o) => Ok(Instants {
            opened: o,
            reached: o,
        }),
        Some(Call::Open(_)) => Err(Refusal::InstantRefused),
        _ => Err(Refusal::MalformedCall),
    }
}

impl Instants {
    // The instants after any other line.
    fn after(self, call: Option<Call>) -> Result<Instants, Refusal>
        ensures { result ≡ later_check self call }
    {
        match call {
            Some(Call::Event(_)) => Ok(self),
            Some(Call::Clock(t)) if interval::is_mark_refused(self.reached, t) => {
                Err(Refusal::InstantRefused)
            }
            Some(Call::Clock(t)) => Ok(Instants { reached: t, ..self }),
            Some(Call::Forget(_)) => Err(Refusal::ForgetMerged),
            Some(Call::Open(_)) | None => Err(Refusal::MalformedCall),
        }
    }
}
