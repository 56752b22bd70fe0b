// Writing the tree of a row as bytes. Inner functions of the watch: each asks what its callers have shown.
#![tactic(auto)]

ghost use Rattle.std.specs.Prelude.{◌≡◌, true, ◌++◌, ◌+◌, ◌≤◌, ◌<◌, pos, nat_abs, length, drop};
ghost use Rattle.std.specs.Int.Signed.{le_z};
ghost use Rattle.std.proofs.lemmas.List.Edits.{sets};
ghost use Rattle.table.specs.Operators.{operators_of};
ghost use Rattle.table.specs.Ready.{Ready};
ghost use Rattle.tree.specs.Tree.{reference_bytes, tree_over, tree_bytes, length_within};
ghost use Rattle.tree.specs.Following.{rest_of, node_by, node_at, Followable};

use chart::Chart;

// What a row's tree is made of, by how many references it is written with: an event's serial, one row, or two of which either may be -1.
#[derive(Clone, Copy)]
enum Node {
    Event(i32),
    One(i32),
    Two(i32, i32),
}

// The number of bytes of row i's tree, where they are no more than the limit. It is counted reference by reference: each takes at least
// one byte of what is left of the limit, and the first that finds too little ends the count, however large the tree is. So at most
// limit + 1 references are followed, each in constant time, and no deeper than operators nest, at most 32 entries in a table that is
// consistent. Of the chart only an array of 32 bytes is lent down, so that each step down needs little stack.
pub fn tree_length(
    chart: Chart,
    table: &[i32],
    rows: usize,
    i: usize,
    limit: usize,
) -> Option<usize>
    requires { Ready chart rows table.now × (i < rows) }
    ensures { result ≡ length_within limit (tree_bytes (operators_of chart) table.now i) }
{
    let arities = table::arities_of(chart);
    let trees = Trees {
        arities: &arities,
        table,
    };
    let rest = trees.rest_behind(i as i32, limit)?;
    Some(limit - rest)
}

// Writes row i's tree at the front of the output, which is long enough, and returns the number of bytes. Each byte is written once;
// the time is linear in them, and the depth as above.
pub fn write_tree(chart: Chart, table: &[i32], rows: usize, i: usize, out: &mut [u8]) -> usize
    requires { Ready chart rows table.now × (i < rows) × (length (tree_bytes (operators_of chart) table.now i) ≤ length out.old) }
    ensures { (result ≡ length (tree_bytes (operators_of chart) table.now i)) × (out.new ≡ tree_bytes (operators_of chart) table.now i ++ drop (length (tree_bytes (operators_of chart) table.now i)) out.old) }
{
    let arities = table::arities_of(chart);
    let trees = Trees {
        arities: &arities,
        table,
    };
    trees.write_reference(i as i32, out, 0)
}

// What trees are read from: how many references the rows of each entry are written with, and the table.
#[derive(Clone, Copy)]
struct Trees<'a> {
    arities: &'a [u8; 32],
    table: &'a [i32],
}

impl Trees<'_> {
    // What is left of a limit behind the bytes of a reference z: one for -1, else the tree of row z.
    #[tactic(auto, using(decimal::proofs::Laws::integer_length_most))]
    fn rest_behind(&self, z: i32, limit: usize) -> Option<usize>
        requires { Followable self.now.arities.now self.now.table.now z }
        ensures { result ≡ rest_of limit (length (reference_bytes (tree_over self.now.arities.now self.now.table.now) z)) }
    {
        if z < 0 {
            return limit.checked_sub(1);
        }
        match self.node_at(z) {
            Node::Event(serial) => limit.checked_sub(1 + decimal::integer_length(serial)),
            Node::One(part) => self.rest_behind(part, limit.checked_sub(2)?),
            Node::Two(left, right) => {
                let rest = self.rest_behind(left, limit.checked_sub(3)?)?;
                self.rest_behind(right, rest)
            }
        }
    }

    // Writes a reference z at a place of the output and returns the place behind it.
    fn write_reference(&self, z: i32, out: &mut [u8], at: usize) -> usize
        requires { Followable self.now.arities.now self.now.table.now z × (at + length (reference_bytes (tree_over self.now.arities.now self.now.table.now) z) ≤ length out.old) }
        ensures { (result ≡ at + length (reference_bytes (tree_over self.now.arities.now self.now.table.now) z)) × (out.new ≡ sets out.old at (reference_bytes (tree_over self.now.arities.now self.now.table.now) z)) }
    {
        if z < 0 {
            out[at] = b'_';
            return at + 1;
        }
        match self.node_at(z) {
            Node::Event(serial) => {
                out[at] = b'e';
                decimal::write_at(serial, out, at + 1)
            }
            Node::One(part) => {
                out[at] = b'<';
                let n = self.write_reference(part, out, at + 1);
                out[n] = b'>';
                n + 1
            }
            Node::Two(left, right) => {
                out[at] = b'<';
                let n = self.write_reference(left, out, at + 1);
                out[n] = b',';
                let m = self.write_reference(right, out, n + 1);
                out[m] = b'>';
                m + 1
            }
        }
    }

    // What row z is made of. Constant time.
    fn node_at(&self, z: i32) -> Node
        requires { Followable self.now.arities.now self.now.table.now z × (le_z (pos 0) z ≡ true) }
        ensures { result ≡ node_at self.now.arities.now self.now.table.now (nat_abs z) }
    {
        let row = table::row_at(self.table, z as usize);
        node_by(self.arities[row.entry as usize], row.left, row.right)
    }
}

// What a row is made of, from its numbers.
fn node_by(arity: u8, left: i32, right: i32) -> Node
    ensures { result ≡ node_by arity left right }
{
    match arity {
        0 => Node::Event(left),
        1 => Node::One(left),
        _ => Node::Two(left, right),
    }
}
