// Tables of rows joined: one after the other, both at once, either, and a loop.
#![tactic(auto)]

ghost use Rattle.std.specs.Prelude.{◌≡◌, ◌&&◌, ◌||◌, ℕ, ◌≤◌, ◌<◌, length};
ghost use Rattle.rules.specs.TreeBlock.{op_of};
ghost use Rattle.code_sets.specs.Bits.{has};
ghost use Rattle.judge_rows.specs.Rows.{at, after, joined_by, Loops, Says, Upper};

use rules::{Operator, PLACE_COUNT};

// The union of the table's rows at the places of `left`. A loop by hand: a `for` over all 64 places makes judging twice to three times as slow,
// and the iterator of `code_sets` goes over codes, half as many.
fn chain(left: u64, table: &[u64]) -> u64
    requires { 64 ≤ length table.now }
    ensures { (j : ℕ) → has result j ≡ after (has left) (at table.now) j }
{
    let mut r: u64 = 0;
    let mut x = left;
    while x != 0 {
        let k = u64::trailing_zeros(x) as usize;
        r |= table[k];
        x &= x - 1;
    }
    r
}

// The row `left` joined to row i of the table, as the children of this operator are. A match and no closure, as the definition goes by the operator.
#[tactic(auto, using(code_sets::proofs::BitLaws::has_or, code_sets::proofs::BitLaws::has_and))]
fn joined_row(operator: Operator, left: u64, i: usize, table: &[u64]) -> u64
    requires { (i < 64) × (64 ≤ length table.now) }
    ensures { (j : ℕ) → has result j ≡ joined_by (op_of operator) (has left) (at table.now) i j }
{
    let right = table[i];
    match operator {
        Operator::Sequence => chain(left, table),
        Operator::Parallel => left & right,
        Operator::Choice | Operator::Loop => left | right,
    }
}

// A table joined to another, as the children of this operator are.
pub fn join_rows(operator: Operator, rows: &mut [u64], next: &[u64])
    requires { (length rows.old ≡ 64) × (length next.now ≡ 64) }
    ensures { (i j : ℕ) → at rows.new i j ≡ joined_by (op_of operator) (at rows.old i) (at next.now) i j }
{
    for (i, row) in rows.iter_mut().enumerate() {
        *row = joined_row(operator, *row, i, next);
    }
}

// A row, and another where the gate has place i.
#[tactic(auto, using(code_sets::proofs::BitLaws::has_or), unfolding(code_sets::specs::Bits::has))]
fn grown(row: u64, gate: u64, i: usize, by: u64) -> u64
    requires { i < 64 }
    ensures { (j : ℕ) → has result j ≡ (has row j || (has gate i && has by j)) }
{
    if (gate >> i) % 2 == 1 { row | by } else { row }
}

// a, then any number of times b and a. Rows go from the last to the first, so that the loop from a later place is known;
// a tail is b and then the loop.
pub fn loop_rows(a: &[u64], b: &[u64]) -> [u64; PLACE_COUNT]
    requires { (length a.now ≡ 64) × (length b.now ≡ 64) }
    ensures { Upper (at a.now) → Upper (at b.now) → (i j : ℕ) → Says (at result i j) (Loops (at a.now) (at b.now) i j) }
{
    let mut rows = [0u64; PLACE_COUNT];
    let mut tails = [0u64; PLACE_COUNT];
    for i in (0..PLACE_COUNT).rev() {
        let first = a[i];
        let redo = b[i];
        let past = chain(first, &tails);
        let later = chain(redo, &rows);
        let row = grown(first | past, first, i, later);
        rows[i] = row;
        tails[i] = grown(later, redo, i, row);
    }
    rows
}
