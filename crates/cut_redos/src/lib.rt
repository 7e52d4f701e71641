// Redo parts: which codes can stand in one, by their edges to the starts and ends.
#![tactic(auto)]

ghost use Rattle.std.specs.Prelude.{◌≡◌, not, ◌&&◌, ℕ, ltb};
ghost use Rattle.rules.specs.Calls.{code_count};
ghost use Rattle.code_sets.specs.Bits.{has, listed};
ghost use Rattle.graph_rows.specs.Edges.{edge_of, meant};
ghost use Rattle.cut_redos.specs.Facing.{faces, may_redo};

use code_sets::Bits;
use graph_rows::Graph;
use rules::{CODE_COUNT, NO_CODE};

// Are the edges to the border none, or one to each of its gates and to no other code of it?
fn facing(border: Bits, edges: Bits, gates: Bits) -> bool
    ensures { result ≡ faces (has edges) (has gates) (listed code_count border) }
{
    let met = border & edges;
    met == 0 || met == border & gates
}

// Can a code with these edges out and in stand in a redo part?
fn fit(out: Bits, into: Bits, border: Bits, starts: Bits, ends: Bits) -> bool
    ensures { result ≡ (faces (has out) (has starts) (listed code_count border) && faces (has into) (has ends) (listed code_count border)) }
{
    facing(border, out, starts) && facing(border, into, ends)
}

// The codes that cannot stand in a redo part, by their edges to the border.
pub fn unfit_codes(g: Graph, cols: [Bits; CODE_COUNT], border: Bits) -> Bits
    ensures { (c : ℕ) → has result c ≡ (ltb c code_count && not (may_redo (edge_of g.rows c) (edge_of cols c) (meant g border))) }
{
    let starts = g.starts.bits;
    let ends = g.ends.bits;
    let mut set: Bits = 0;
    for c in 0..NO_CODE {
        let i = c as usize;
        if !fit(g.rows[i], cols[i], border, starts, ends) {
            set |= 1 << c;
        }
    }
    set
}
