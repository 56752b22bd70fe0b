// The listing program: a chart, an empty line and a log on standard input; on standard output the table at the end, or one line `refused`, number,
// line. What is read, played and written is in crate `input`; here is only the memory: a table of 3,000 rows of five numbers, and an output with the bytes of
// a refusal and of each row that the end-to-end theorem asks for.
#![tactic(auto)]

ghost use Rattle.std.specs.Prelude.{◌≤◌, ◌≡◌, true, ℕ, Option, Result, IfSome, length};
ghost use Rattle.std.specs.declared.io.Error.{Error};
ghost use Rattle.std.specs.Io.KnownBytes.{Appends, Keeps};
ghost use Rattle.reading.specs.Readings.{Hands};
ghost use Rattle.input.specs.Inputs.{PrintsInput, front_of};
ghost use Rattle.program.specs.Outcomes.{printed_for};
ghost use Rattle.program.specs.Statements.{bytes_for};

use printing::{REFUSAL_SIZE, ROW_SIZE};
use program::Format;
use std::io::{Read, Write};

const OUTPUT_SIZE: usize = REFUSAL_SIZE + 3000 * ROW_SIZE;

// What this program prints is a listing.
fn run<R: Read, W: Write, E: Write>(
    reader: &mut R,
    writer: &mut W,
    errors: &mut E,
    table: &mut [i32],
    out: &mut [u8],
) -> bool
    requires { (length table.old ≡ 15000) × (bytes_for Format.Listing 3000 ≤ length out.old) }
    ensures printed { (r : Result (Option ℕ) Error) × PrintsInput Format.Listing (R.remaining reader.old) (R.remaining reader.new) table.old out.old r table.new out.new × Hands (W.contents writer.old) (W.contents writer.new) (front_of r out.new) result }
    ensures whole { result ≡ true → IfSome (R.remaining reader.old) (λ s. Appends (W.contents writer.old) (W.contents writer.new) (printed_for Format.Listing 3000 s)) }
    ensures silent { result ≡ true → Keeps (E.contents errors.old) (E.contents errors.new) }
{
    input::run(
        reader,
        writer,
        errors,
        Format::Listing,
        b"listing",
        table,
        out,
    )
}

fn main(rt: HostRuntime) {
    let mut table = [0i32; 15000];
    let mut out = [0u8; OUTPUT_SIZE];
    run(
        &mut rt.stdin(),
        &mut rt.stdout(),
        &mut rt.stderr(),
        &mut table,
        &mut out,
    );
}
