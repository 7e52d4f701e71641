// Who reaches whom, by tables of rows by value.
#![tactic(auto)]

ghost use Rattle.std.specs.Prelude.{◌≡◌, ◌||◌, ◌&&◌, ℕ, ◌<◌};
ghost use Rattle.rules.specs.Words.{from};
ghost use Rattle.rules.specs.Mining.{through};
ghost use Rattle.rules.specs.Calls.{code_count};
ghost use Rattle.code_sets.specs.Bits.{has};
ghost use Rattle.graph_rows.specs.Edges.{edge_of};

use code_sets::Bits;
use rules::{CODE_COUNT, NO_CODE};

// A row with the row of k, where it has k.
fn stepped(row: Bits, by: Bits, k: u8) -> Bits
    requires { k < code_count }
    ensures { (b : ℕ) → has result b ≡ (has row b || (has row k && has by b)) }
{
    if (row >> k) % 2 == 1 { row | by } else { row }
}

// Every row by way of the code k.
fn by_way(mut rows: [Bits; CODE_COUNT], k: u8) -> [Bits; CODE_COUNT]
    requires { k < code_count }
    ensures { (a b : ℕ) → edge_of result a b ≡ (edge_of rows a b || (edge_of rows a k && edge_of rows k b)) }
{
    let by = rows[k as usize];
    for row in rows.iter_mut() {
        *row = stepped(*row, by, k);
    }
    rows
}

// Who reaches whom by one edge or more. No way leads on through a code whose row is empty.
pub fn reach(mut rows: [Bits; CODE_COUNT]) -> [Bits; CODE_COUNT]
    ensures { (a b : ℕ) → edge_of result a b ≡ through (from 0 code_count) (from 0 code_count) (edge_of rows) a b }
{
    for k in (0..NO_CODE).rev() {
        if rows[k as usize] != 0 {
            rows = by_way(rows, k);
        }
    }
    rows
}
