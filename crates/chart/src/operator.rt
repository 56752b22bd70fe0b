// The operators of a chart: their words, their codes, and what each asks of its operands.
ghost use Rattle.std.specs.Prelude.{◌≡◌};
ghost use Rattle.chart.specs.Operators.{operator_of, edges_of, relation_of, length_test_of, later_kind_of, kind_of, shape_of, takes_length, in_range, are_lower};

use interval::{Edges, LengthTest, Nearest, Relation};

// What an operator code stands for.
#[derive(Clone, Copy, PartialEq, Eq)]
pub enum Kind {
    Event,
    Or,
    Pair(Relation),
    Absence(Edges),
    Length(LengthTest),
    After,
    Nearest(Nearest),
    Unknown,
}

// How a row of an operator refers to other rows.
#[derive(Clone, Copy, PartialEq, Eq)]
pub enum Shape {
    Leaf, // an event's: a serial, no reference
    Single, // one reference, on the left
    Arms, // one reference, on the left or on the right
    Double, // two references
    Delayed, // one reference, on the left, to a row that ended a wait earlier
}

// The operator words in the order of their codes.
const WORDS: [&[u8]; 20] = [
    b"event", // 0
    b"seq", // 1
    b"or", // 2
    b"and", // 3
    b"-[]", // 4
    b"-][", // 5
    b"-[[", // 6
    b"-]]", // 7
    b"meets", // 8
    b"overlaps", // 9
    b"starts", // 10
    b"during", // 11
    b"finishes", // 12
    b"equals", // 13
    b"lasts", // 14
    b"atmost", // 15
    b"atleast", // 16
    b"after", // 17
    b"cut", // 18
    b"change", // 19
];

// The code of the operator with this word. At most 20 comparisons of lengths, and the bytes of those that agree.
pub fn operator_of(s: &[u8]) -> Option<u8>
    ensures { result ≡ operator_of s.now }
{
    WORDS.iter().position(|word| s == *word).map(|i| i as u8)
}

// What an operator code stands for, by one match with ranges. What is in a range is told apart in a function of its own, and so are the codes behind
// the operator table: as arms of this match they become a jump through a table of all codes, and the check of rows of mixed operators takes 5 % longer.
#[tactic(auto, unfolding(crate::specs::Operators::kind_of))]
pub fn kind_of(op: u8) -> Kind
    ensures { result ≡ kind_of op }
{
    match op {
        0 => Kind::Event,
        1 => Kind::Pair(Relation::Seq),
        2 => Kind::Or,
        3 => Kind::Pair(Relation::And),
        4..=7 => Kind::Absence(edges_of(op)),
        8..=13 => Kind::Pair(relation_of(op)),
        14..=16 => Kind::Length(length_test_of(op)),
        _ => later_kind_of(op),
    }
}

fn later_kind_of(op: u8) -> Kind
    ensures { result ≡ later_kind_of op }
{
    match op {
        17 => Kind::After,
        18 => Kind::Nearest(Nearest::Cut),
        19 => Kind::Nearest(Nearest::Change),
        _ => Kind::Unknown,
    }
}

#[tactic(auto, unfolding(crate::specs::Operators::edges_of))]
fn edges_of(op: u8) -> Edges
    ensures { result ≡ edges_of op }
{
    match op {
        4 => Edges::ClosedClosed,
        5 => Edges::OpenOpen,
        6 => Edges::ClosedOpen,
        _ => Edges::OpenClosed,
    }
}

#[tactic(auto, unfolding(crate::specs::Operators::relation_of))]
fn relation_of(op: u8) -> Relation
    ensures { result ≡ relation_of op }
{
    match op {
        8 => Relation::Meets,
        9 => Relation::Overlaps,
        10 => Relation::Starts,
        11 => Relation::During,
        12 => Relation::Finishes,
        _ => Relation::Equals,
    }
}

#[tactic(auto, unfolding(crate::specs::Operators::length_test_of))]
fn length_test_of(op: u8) -> LengthTest
    ensures { result ≡ length_test_of op }
{
    match op {
        14 => LengthTest::Lasts,
        15 => LengthTest::AtMost,
        _ => LengthTest::AtLeast,
    }
}

// How a row of this kind refers to other rows. Constant time.
pub fn shape_of(k: Kind) -> Shape
    ensures { result ≡ shape_of k }
{
    match k {
        Kind::Event => Shape::Leaf,
        Kind::Or => Shape::Arms,
        Kind::Pair(_) | Kind::Nearest(_) => Shape::Double,
        Kind::Absence(_) | Kind::Length(_) => Shape::Single,
        Kind::After | Kind::Unknown => Shape::Delayed,
    }
}

// Whether the second operand is a length. Constant time.
pub fn takes_length(k: Kind) -> bool
    ensures { result ≡ takes_length k }
{
    matches!(k, Kind::Length(_) | Kind::After)
}

// Whether an event's code or a length is in its range; an event has no second operand.
#[tactic(auto, unfolding(crate::specs::Operators::in_range))]
pub fn in_range(k: Kind, a: u64, b: u64) -> bool
    ensures { result ≡ in_range k a b }
{
    match k {
        Kind::Event => (a <= 255) & (b == 0),
        Kind::Length(_) | Kind::After => interval::is_length(b),
        Kind::Or | Kind::Pair(_) | Kind::Absence(_) | Kind::Nearest(_) => true,
        Kind::Unknown => false,
    }
}

// Whether the operands are lower entry numbers than n.
#[tactic(auto, unfolding(crate::specs::Operators::are_lower))]
pub fn are_lower(k: Kind, n: u64, a: u64, b: u64) -> bool
    ensures { result ≡ are_lower k n a b }
{
    match k {
        Kind::Event => true,
        Kind::Length(_) | Kind::After => a < n,
        Kind::Or | Kind::Pair(_) | Kind::Absence(_) | Kind::Nearest(_) => (a < n) & (b < n),
        Kind::Unknown => false,
    }
}
