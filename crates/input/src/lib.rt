// The standard input, read in pieces and played to its end. What a reader hands over is any list of bytes, and no contract can say which a file has; so those here
// say that there are pieces of which the run, the table and what is printed are those of crate `program`, and that these are the reader's bytes where they are known.
#![tactic(auto)]

ghost use Rattle.std.specs.Prelude.{◌≡◌, true, ℕ, ◌≤◌, Option, Result, IfSome, length};
ghost use Rattle.std.specs.declared.io.Error.{Error};
ghost use Rattle.std.specs.Io.KnownBytes.{Appends, Keeps};
ghost use Rattle.reading.specs.Readings.{Hands};
ghost use Rattle.program.specs.Outcomes.{printed_for};
ghost use Rattle.program.specs.Statements.{bytes_for};
ghost use Rattle.input.specs.Inputs.{OfInput, PrintsInput, Printout, front_of};

use program::{Format, Run};
use std::io;
use std::io::{Error, ErrorKind, Read, Write};

// A whole program but for its memory: plays the input of a reader on a table of 3,000 rows and hands what is printed for it to a writer. Where reading or writing
// fails, a line on `errors` says so behind the program's name, and where reading fails nothing is printed. The answer is whether all went well.
pub fn run<R: Read, W: Write, E: Write>(
    reader: &mut R,
    writer: &mut W,
    errors: &mut E,
    format: Format,
    name: &[u8],
    table: &mut [i32],
    out: &mut [u8],
) -> bool
    requires { (length table.old ≡ 15000) × (bytes_for format 3000 ≤ length out.old) }
    ensures printed { (r : Result (Option ℕ) Error) × PrintsInput format (R.remaining reader.old) (R.remaining reader.new) table.old out.old r table.new out.new × Hands (W.contents writer.old) (W.contents writer.new) (front_of r out.new) result }
    ensures whole { result ≡ true → IfSome (R.remaining reader.old) (λ s. Appends (W.contents writer.old) (W.contents writer.new) (printed_for format 3000 s)) }
    ensures silent { result ≡ true → Keeps (E.contents errors.old) (E.contents errors.new) }
{
    match print_input(reader, format, table, out) {
        Ok(length) => write(writer, errors, format, name, &out[..length.unwrap()]),
        Err(e) => {
            reading::say(errors, name, b": standard input could not be read", Some(e));
            false
        }
    }
}

// Writes what the program of this format prints for an input, with a table of 3,000 rows; nothing else may be handed over.
fn write<W: Write, E: Write>(
    writer: &mut W,
    errors: &mut E,
    format: Format,
    name: &[u8],
    text: &[u8],
) -> bool
    requires { Printout format 3000 text.now }
    ensures handed { Hands (W.contents writer.old) (W.contents writer.new) text.now result }
    ensures silent { result ≡ true → Keeps (E.contents errors.old) (E.contents errors.new) }
{
    if let Err(e) = reading::write_whole(writer, text) {
        reading::say(
            errors,
            name,
            b": standard output could not be written",
            Some(e),
        );
        return false;
    }
    true
}

// Plays an input to its end and writes what the program of this format prints for it at the front of the output: the number of bytes. It is None, and nothing is
// read, where the output has less than `bytes_for` says.
pub fn print_input<R: Read>(
    reader: &mut R,
    format: Format,
    table: &mut [i32],
    out: &mut [u8],
) -> io::Result<Option<usize>>
    ensures { PrintsInput format (R.remaining reader.old) (R.remaining reader.new) table.old out.old result table.new out.new }
{
    if out.len() < program::bytes_for(format, table.len()) {
        return Ok(None);
    }
    let mut run = program::start();
    play_input(reader, &mut run, table)?;
    Ok(run.print(format, table, out))
}

// A proved loop has to end, and nothing says that an input does: no run uses up so many readings, and one that did would count as one that failed.
const READINGS: u64 = 1 << 47;

// Plays an input from the start to its end: reads behind the bytes kept, plays what came, and moves what is to be kept of it to the front. Where reading fails, the run
// is left as far as it was read; a refused run reads no further. Linear in the bytes, and for each line the cost of its call on the watch.
pub fn play_input<R: Read>(reader: &mut R, run: &mut Run, table: &mut [i32]) -> io::Result<()>
    ensures { OfInput (R.remaining reader.old) (R.remaining reader.new) table.old run.new result table.new }
{
    let mut buf = [0u8; 65536];
    let mut kept = 0;
    *run = program::start();
    for _ in 0..READINGS {
        let n = reading::read_more(reader, &mut buf, kept)?;
        if n == 0 {
            *run = run.finish(kept);
            return Ok(());
        }
        let end = kept + n;
        let fed = run.feed(table, &buf[..end]);
        *run = fed.run;
        if program::is_refused(*run) {
            return Ok(());
        }
        kept = program::keep_rest(&mut buf, fed.used, end);
    }
    Err(Error::from(ErrorKind::TimedOut))
}
