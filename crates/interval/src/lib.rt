// Instants and lengths, in tenths of a millisecond, which clock marks and forgets are refused, and the conditions on intervals. Every other crate goes by
// these contracts and by the laws of `proofs/Laws.antt`. Every function takes constant time and accepts every input. Comparisons are joined by `&` and `|`:
// each is as cheap as the branch that would spare it.
#![tactic(auto)]

ghost use Rattle.std.specs.Prelude.{◌≡◌, ℤ, pos, ◌+ℤ◌, ◌-ℤ◌};
ghost use Rattle.interval.specs.Instants.{is_instant, is_length, first_floor, is_mark_refused, is_forget_refused, eq_z, least, greatest};
ghost use Rattle.interval.specs.Conditions.{is_related, ending_of, is_forbidding, has_length};

// The operators of two operands that ask a condition of both intervals.
#[derive(Clone, Copy, PartialEq, Eq)]
pub enum Relation {
    Seq,
    And,
    Meets,
    Overlaps,
    Starts,
    During,
    Finishes,
    Equals,
}

// Where the two intervals of a related pair end, r the first and s the second. The whole ends where the later of them ends.
#[derive(Clone, Copy, PartialEq, Eq)]
pub enum Ending {
    Before, // r ends before s starts, and s ends where the whole ends
    Within, // r ends when s starts or later, and s ends where the whole ends
    Together, // both end where the whole ends
    Either, // one of the two ends where the whole ends
}

// The early and the late edge of an absence: -[] -][ -[[ -]]
#[derive(Clone, Copy, PartialEq, Eq)]
pub enum Edges {
    ClosedClosed,
    OpenOpen,
    ClosedOpen,
    OpenClosed,
}

// The operators that pair r with the first s after it: cut; and change, where r is also the last before s.
#[derive(Clone, Copy, PartialEq, Eq)]
pub enum Nearest {
    Cut,
    Change,
}

// The operators that test how long one operand lasts.
#[derive(Clone, Copy, PartialEq, Eq)]
pub enum LengthTest {
    Lasts,
    AtMost,
    AtLeast,
}

// A whole number of tenths, held in 32 bits or, where it was read and is not known to be an instant, in 64.
pub trait Tenths: Copy {
    ghost tenths: { Self → ℤ };

    fn tenths(self) -> i64
        ensures { result ≡ tenths self };
}

impl Tenths for i32 {
    ghost tenths = { λ x. x };

    fn tenths(self) -> i64 {
        i64::from(self)
    }
}

impl Tenths for i64 {
    ghost tenths = { λ x. x };

    fn tenths(self) -> i64 {
        self
    }
}

// Whether x is in the range of the instants.
#[tactic(auto, unfolding(crate::specs::Instants::is_instant))]
pub fn is_instant<T: Tenths>(x: T) -> bool
    ensures { result ≡ is_instant (T.tenths x) }
{
    let z = x.tenths();
    (-1000000000 <= z) & (z <= 1000000000)
}

// Whether d is in the range of the lengths; as wide as numbers are read.
#[tactic(auto, unfolding(crate::specs::Instants::is_length))]
pub fn is_length(d: u64) -> bool
    ensures { result ≡ is_length d }
{
    d <= 2000000000
}

// The floor of a watch before any forget: the least instant.
const FIRST_FLOOR: i32 = -1000000000;

#[tactic(auto, unfolding(crate::specs::Instants::first_floor))]
pub fn first_floor() -> i32
    ensures { result ≡ first_floor }
{
    FIRST_FLOOR
}

// Whether a clock mark at x is refused while `opened` is the open instant: it is out of range or not after it.
#[tactic(auto, unfolding(crate::specs::Instants::is_mark_refused))]
pub fn is_mark_refused<T: Tenths>(opened: T, x: T) -> bool
    ensures { result ≡ is_mark_refused (T.tenths opened) (T.tenths x) }
{
    !is_instant(x) | (x.tenths() <= opened.tenths())
}

// Whether a forget of what starts before f is refused: f is below the floor, above the open instant or out of range.
#[tactic(auto, unfolding(crate::specs::Instants::is_forget_refused))]
pub fn is_forget_refused(floor: i32, opened: i32, f: i32) -> bool
    ensures { result ≡ is_forget_refused floor opened f }
{
    (f < floor) | ((opened < f) | !is_instant(f))
}

// The least of two starts.
pub fn least_start(a: i32, b: i32) -> i32
    ensures { result ≡ least a b }
{
    a.min(b)
}

// The greatest of two ends.
pub fn greatest_end(a: i32, b: i32) -> i32
    ensures { result ≡ greatest a b }
{
    a.max(b)
}

// How long an interval lasts; wider than an instant, so that no difference of two i32 overflows.
pub fn length_of(start: i32, end: i32) -> i64
    ensures { result ≡ end -ℤ start }
{
    i64::from(end) - i64::from(start)
}

// The end of a wait of d that begins at `end`; wider than an instant, so that no sum overflows.
pub fn delayed(end: i32, d: u32) -> i64
    ensures { result ≡ end +ℤ pos d }
{
    i64::from(end) + i64::from(d)
}

// Where a wait of d begins that ends at x; as wide.
pub fn earlier_by(x: i32, d: u32) -> i64
    ensures { result ≡ x -ℤ pos d }
{
    i64::from(x) - i64::from(d)
}

// Whether a wait of d that begins at `part` ends at `end`. Compared in 32 bits, once the sum is known to fit: an end that is widened takes the check of rows
// a register more, and on some tables half as long again.
pub fn is_delayed(part: i32, d: u32, end: i32) -> bool
    ensures { result ≡ eq_z end (part +ℤ pos d) }
{
    i32::try_from(delayed(part, d)).is_ok_and(|z| z == end)
}

// The end of a wait of d that begins at `end`, or the limit where that is no later.
pub fn least_delayed(end: i32, d: u32, limit: i32) -> i32
    ensures { result ≡ least (end +ℤ pos d) limit }
{
    i32::try_from(delayed(end, d)).map_or(limit, |z| z.min(limit))
}

// Whether the interval r, from rs to re, and the interval s, from ss to se, meet the condition of the operator c.
#[tactic(auto, unfolding(crate::specs::Conditions::is_related))]
pub fn is_related(c: Relation, rs: i32, re: i32, ss: i32, se: i32) -> bool
    ensures { result ≡ is_related c rs re ss se }
{
    match c {
        Relation::Seq => re < ss,
        Relation::And => true,
        Relation::Meets => re == ss,
        Relation::Overlaps => (rs < ss) & ((ss < re) & (re < se)),
        Relation::Starts => (rs == ss) & (re < se),
        Relation::During => (ss < rs) & (re < se),
        Relation::Finishes => (ss < rs) & (re == se),
        Relation::Equals => (rs == ss) & (re == se),
    }
}

// Where two intervals r and s that meet the condition of c end.
#[tactic(auto, unfolding(crate::specs::Conditions::ending_of))]
pub fn ending_of(c: Relation) -> Ending
    ensures { result ≡ ending_of c }
{
    match c {
        Relation::Seq => Ending::Before,
        Relation::And => Ending::Either,
        Relation::Meets => Ending::Within,
        Relation::Overlaps => Ending::Within,
        Relation::Starts => Ending::Within,
        Relation::During => Ending::Within,
        Relation::Finishes => Ending::Together,
        Relation::Equals => Ending::Together,
    }
}

// Whether the interval s forbids the interval r under an absence with these edges.
#[tactic(auto, unfolding(crate::specs::Conditions::is_forbidding))]
pub fn is_forbidding(e: Edges, rs: i32, re: i32, ss: i32, se: i32) -> bool
    ensures { result ≡ is_forbidding e rs re ss se }
{
    match e {
        Edges::ClosedClosed => (rs <= ss) & (se <= re),
        Edges::OpenOpen => (rs < ss) & (se < re),
        Edges::ClosedOpen => (rs <= ss) & (se < re),
        Edges::OpenClosed => (rs < ss) & (se <= re),
    }
}

// Whether the interval lasts d as the test asks.
#[tactic(auto, unfolding(crate::specs::Conditions::has_length))]
pub fn has_length(t: LengthTest, d: u32, start: i32, end: i32) -> bool
    ensures { result ≡ has_length t d start end }
{
    let n = length_of(start, end);
    let m = i64::from(d);
    match t {
        LengthTest::Lasts => n == m,
        LengthTest::AtMost => n <= m,
        LengthTest::AtLeast => m <= n,
    }
}
