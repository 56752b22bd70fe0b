// Numbers, lengths and instants on paper: which number a spelling is, and how a number is spelled. Lengths and instants are in tenths of a
// millisecond. The other crates go by these contracts and by the laws of `proofs/Laws.antt` and `proofs/Tenths.antt`, and know nothing of
// digits. Every public function accepts every input, but for `write_at`, which asks for room at its place.
#![tactic(auto)]

ghost use Rattle.std.specs.Prelude.{◌≡◌, ◌+◌, ◌-◌, ◌≤◌, ℕ, List, cond, length};
ghost use Rattle.std.proofs.lemmas.List.Edits.{sets};
ghost use Rattle.decimal.specs.Spelling.{is_digit, all_digits, digits_value, number_of, milliseconds_of, in_tenths, length_of, instant_of, spelled_number, spelled_length, signed, spelled, spelled_instant, written, written_output};

// The number that the whole slice spells. One pass over at most 10 bytes; a longer slice is refused unread.
#[tactic(auto, unfolding(crate::specs::Spelling::number_of, crate::specs::Spelling::is_number, crate::specs::Spelling::has_leading_zero))]
pub fn read_number(s: &[u8]) -> Option<u64>
    ensures { result ≡ number_of s.now }
{
    if s.is_empty() || 10 < s.len() || matches!(s, [b'0', _, ..]) {
        return None;
    }
    read_digits(s)
}

// The length that the whole slice spells, in tenths. One pass over at most 11 bytes.
#[tactic(auto, unfolding(crate::specs::Spelling::length_of, crate::specs::Spelling::has_point))]
pub fn read_length(s: &[u8]) -> Option<u64>
    ensures { result ≡ length_of s.now }
{
    match s {
        [whole @ .., b'.', tenth] => read_tenths(whole, *tenth),
        _ => read_tenths(s, b'0'),
    }
}

// The instant that the whole slice spells, in tenths. One pass over at most 12 bytes.
#[tactic(auto, unfolding(crate::specs::Spelling::instant_of, crate::specs::Spelling::without_minus, crate::specs::Spelling::with_minus))]
pub fn read_instant(s: &[u8]) -> Option<i64>
    ensures { result ≡ instant_of s.now }
{
    match s {
        [b'-', length @ ..] => match read_length(length)? {
            0 => None,
            n => Some(-(n as i64)),
        },
        _ => Some(read_length(s)? as i64),
    }
}

// What can be written on paper.
pub trait Spelled: Copy {
    ghost spelling: { Self → List ℕ };

    // Writes the spelling at the front of the output and returns the number of bytes. Where the output is too short it writes nothing.
    // Each byte is written once, with one division by 10 for each digit but the first.
    fn write(self, out: &mut [u8]) -> Option<usize>
        ensures { (result ≡ written (spelling self) out.old) × (out.new ≡ written_output (spelling self) out.old) };
}

// Writes x at a place of the output that has the room, for callers that know it, and returns the place behind it.
#[tactic(auto, unfolding(crate::specs::Spelling::written, crate::specs::Spelling::written_output))]
pub fn write_at<T: Spelled>(x: T, out: &mut [u8], at: usize) -> usize
    requires { at + length (T.spelling x) ≤ length out.old }
    ensures { (result ≡ at + length (T.spelling x)) × (out.new ≡ sets out.old at (T.spelling x)) }
{
    at + x.write(&mut out[at..]).unwrap()
}

// An instant, in tenths, is written with its point and one digit behind it, a whole number without.
#[derive(Clone, Copy)]
pub struct Instant(pub i32);

// A length, in tenths, likewise.
#[derive(Clone, Copy)]
struct Length(u64);

impl Spelled for u64 {
    ghost spelling = { spelled_number };

    // From the last digit to the first.
    #[tactic(auto, unfolding(crate::specs::Spelling::written, crate::specs::Spelling::written_output))]
    fn write(self, out: &mut [u8]) -> Option<usize> {
        let n = digit_count(self);
        if out.len() < n {
            return None;
        }
        let mut rest = self;
        for k in (1..n).rev() {
            out[k] = b'0' + (rest % 10) as u8;
            rest /= 10;
        }
        out[0] = b'0' + rest as u8;
        Some(n)
    }
}

impl Spelled for Length {
    ghost spelling = { λ d. spelled_length d.0 };

    // The whole milliseconds go into the output without its last two bytes, so that there is room for the point and the digit.
    #[tactic(auto, unfolding(crate::specs::Spelling::written, crate::specs::Spelling::written_output, crate::specs::Spelling::spelled_length))]
    fn write(self, out: &mut [u8]) -> Option<usize> {
        let room = out.len().checked_sub(2)?;
        let n = (self.0 / 10).write(&mut out[..room])?;
        out[n] = b'.';
        out[n + 1] = b'0' + (self.0 % 10) as u8;
        Some(n + 2)
    }
}

impl Spelled for i32 {
    ghost spelling = { spelled };

    #[tactic(auto, using(std::proofs::lemmas::Int::ints), unfolding(crate::specs::Spelling::signed))]
    fn write(self, out: &mut [u8]) -> Option<usize> {
        write_signed(self, u64::from(self.unsigned_abs()), out)
    }
}

impl Spelled for Instant {
    ghost spelling = { λ x. spelled_instant x.0 };

    #[tactic(auto, using(std::proofs::lemmas::Int::ints), unfolding(crate::specs::Spelling::signed))]
    fn write(self, out: &mut [u8]) -> Option<usize> {
        write_signed(self.0, Length(u64::from(self.0.unsigned_abs())), out)
    }
}

// The number of bytes of x in decimal, minus included. Constant time.
#[tactic(auto, using(std::proofs::lemmas::Int::ints, crate::proofs::Laws::wide_digits_most), unfolding(crate::specs::Spelling::signed))]
pub fn integer_length(x: i32) -> usize
    ensures { result ≡ length (spelled x) }
{
    usize::from(x < 0) + digit_count(u64::from(x.unsigned_abs()))
}

// Writes the absolute value of z, with a minus before it where z is below 0. Where the output is too short it writes nothing.
#[tactic(auto, unfolding(crate::specs::Spelling::written, crate::specs::Spelling::written_output, crate::specs::Spelling::signed))]
fn write_signed<T: Spelled>(z: i32, magnitude: T, out: &mut [u8]) -> Option<usize>
    ensures { let s = signed (λ _. T.spelling magnitude) z in (result ≡ written s out.old) × (out.new ≡ written_output s out.old) }
{
    if 0 <= z {
        return magnitude.write(out);
    }
    let (minus, rest) = out.split_first_mut()?;
    let n = magnitude.write(rest)?;
    *minus = b'-';
    Some(n + 1)
}

// Whole milliseconds and the byte b behind their point, in tenths. More than 9 digits are refused unread.
#[tactic(auto, unfolding(crate::specs::Spelling::milliseconds_of, crate::specs::Spelling::in_tenths))]
fn read_tenths(s: &[u8], b: u8) -> Option<u64>
    ensures { result ≡ in_tenths (milliseconds_of s.now) b }
{
    if 9 < s.len() {
        return None;
    }
    Some(read_number(s)? * 10 + digit_of(b)?)
}

// The number that the digits spell, leading zeros or not. At most 10 digits, so that no value wraps. One pass.
fn read_digits(s: &[u8]) -> Option<u64>
    requires { length s.now ≤ 10 }
    ensures { result ≡ cond (all_digits s.now) (Some (digits_value s.now)) None }
{
    let mut value: u64 = 0;
    for &b in s {
        value = value * 10 + digit_of(b)?;
    }
    Some(value)
}

// The digit that a byte is. Constant time.
#[tactic(auto, unfolding(crate::specs::Spelling::is_digit))]
fn digit_of(b: u8) -> Option<u64>
    ensures { result ≡ cond (is_digit b) (Some (b - 48)) None }
{
    match b {
        b'0'..=b'9' => Some(u64::from(b - b'0')),
        _ => None,
    }
}

// How many digits m has. Constant time.
fn digit_count(m: u64) -> usize
    ensures { result ≡ length (spelled_number m) }
{
    m.max(1).ilog10() as usize + 1
}
