// Every edge of a table the other way.
#![tactic(auto)]

ghost use Rattle.std.specs.Prelude.{◌≡◌, ◌||◌, ◌&&◌, ℕ, ◌<◌, eqb, length};
ghost use Rattle.rules.specs.Calls.{code_count};
ghost use Rattle.code_sets.specs.Bits.{has};
ghost use Rattle.graph_rows.specs.Edges.{edge_of};
ghost use Rattle.graph_reverse.specs.Reverse.{Back};

use code_sets::{Bits, CodeSet};
use rules::{CODE_COUNT, NO_CODE};

// The edges of one row the other way: a goes into the row of each code that it leads to.
fn turned(out: &mut [Bits], row: Bits, a: u8)
    requires { (length out.old ≡ code_count) × (a < code_count) }
    ensures { (c b : ℕ) → edge_of out.new c b ≡ (edge_of out.old c b || (has row c && eqb b a)) }
{
    let bit: Bits = 1 << a;
    for c in (CodeSet { bits: row }).codes() {
        out[c as usize] |= bit;
    }
}

// Every edge the other way. Only the edges that are there are gone through: a table of few edges costs few steps.
pub fn transpose(rows: [Bits; CODE_COUNT]) -> [Bits; CODE_COUNT]
    ensures { Back rows result }
{
    let mut out: [Bits; CODE_COUNT] = [0; CODE_COUNT];
    for a in 0..NO_CODE {
        turned(&mut out, rows[a as usize], a);
    }
    out
}
