// Reading in pieces into a buffer, behind the bytes that are kept of it, and writing a text whole. What a reader hands over is any list of bytes: the contracts here
// say where it stands, and, where the bytes of a reader or a writer are known, that they are these.
#![tactic(auto)]

ghost use Rattle.std.specs.Prelude.{◌≡◌, ◌+◌, ◌≤◌, ◌↔◌, IfOk, IsErrAnd, IsTrue, is_ok, length, take, drop};
ghost use Rattle.std.specs.IoError.{error_kind};
ghost use Rattle.std.specs.Io.KnownBytes.{ReadConsumes};
ghost use Rattle.reading.specs.Readings.{Hands};

use std::fmt::InlineText;
use std::io;
use std::io::{Error, ErrorKind, Read, Write};

// Reads into the buffer behind the bytes kept: how many bytes came, 0 at the end of the file, or why reading failed. A reading that a signal interrupted brings
// none and is tried again.
pub fn read_more<R: Read>(reader: &mut R, buf: &mut [u8], kept: usize) -> io::Result<usize>
    requires { kept ≤ length buf.old }
    ensures same { take kept buf.new ≡ take kept buf.old }
    ensures inside { IfOk result (λ n. kept + n ≤ length buf.old) }
    ensures bytes { ReadConsumes (R.remaining reader.old) (R.remaining reader.new) result (drop kept buf.new) }
{
    for _ in 0..u64::MAX {
        let got = reader.read(&mut buf[kept..]);
        if !is_interrupted(got) {
            return got;
        }
    }
    Err(Error::from(ErrorKind::TimedOut))
}

// Whether the reading that answered so failed because a signal came before a byte did.
fn is_interrupted(got: io::Result<usize>) -> bool
    ensures { IsTrue result ↔ IsErrAnd got (λ e. error_kind e ≡ ErrorKind.Interrupted) }
{
    got.is_err_and(|e| e.kind() == ErrorKind::Interrupted)
}

// Hands a text to a writer, all of it; where that fails, what was handed over is the front of it. What a signal interrupted is tried again.
pub fn write_whole<W: Write>(writer: &mut W, text: &[u8]) -> io::Result<()>
    ensures { Hands (W.contents writer.old) (W.contents writer.new) text.now (is_ok result) }
{
    let mut rest = text;
    for _ in 0..u64::MAX {
        if rest.is_empty() {
            return Ok(());
        }
        match writer.write(rest) {
            Ok(0) => return Err(Error::from(ErrorKind::WriteZero)),
            Ok(n) => rest = &rest[n..],
            Err(e) if e.kind() == ErrorKind::Interrupted => {}
            Err(e) => return Err(e),
        }
    }
    Err(Error::from(ErrorKind::TimedOut))
}

// The most bytes of a system's reason.
const REASON_SIZE: usize = 256;

// Says in one line whose program it is, what failed, and the system's reason where there is one. Where not even that can be written, nothing says so.
pub fn say<W: Write>(errors: &mut W, name: &[u8], what: &[u8], reason: Option<Error>) {
    let _ = say_line(errors, name, what, reason);
}

fn say_line<W: Write>(
    errors: &mut W,
    name: &[u8],
    what: &[u8],
    reason: Option<Error>,
) -> io::Result<()> {
    errors.write_all(name)?;
    errors.write_all(what)?;
    if let Some(e) = reason {
        errors.write_all(b": ")?;
        let text = InlineText::<REASON_SIZE>::of(e);
        errors.write_all(without_number(text.as_str()).as_bytes())?;
    }
    errors.write_all(b"\n")
}

// The text of an error without the system's number of it, which std adds.
fn without_number(text: &str) -> &str {
    text.rsplit_once(" (os error ")
        .map_or(text, |(reason, _)| reason)
}
