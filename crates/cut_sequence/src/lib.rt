// Sequence: groups of codes that belong together, in the order of reach.
#![tactic(auto)]

ghost use Rattle.std.specs.Prelude.{◌≡◌, ◌∷◌, ◌++◌, ℕ, ◌≤◌, take, drop};
ghost use Rattle.rules.specs.Mining.{ordered};
ghost use Rattle.rules.specs.Calls.{code_count};
ghost use Rattle.graph_rows.specs.Edges.{edge_of};
ghost use Rattle.cut_parts.specs.Sets.{sets_of, lists_of};
ghost use Rattle.cut_sequence.specs.Order.{place_on, in_sequence};

use code_sets::{Bits, CodeSet};
use cut_components::Bond;
use cut_parts::Parts;
use rules::CODE_COUNT;

// The place of the first part whose smallest code is in the row; past the last where there is none.
fn first_reached(parts: Parts, row: Bits) -> usize
    requires { parts.n ≤ code_count }
    ensures { (result ≤ parts.n) × ((p : ℕ) → place_on code_count row p (sets_of parts) ≡ take result (sets_of parts) ++ (p ∷ drop result (sets_of parts))) }
{
    let reached = CodeSet { bits: row };
    parts.sets[..parts.n]
        .iter()
        .position(|&part| reached.has_first(CodeSet { bits: part }.first()))
        .unwrap_or(parts.n)
}

// The parts in the order of a relation, each before the first that it reaches.
fn in_order(parts: Parts, to: [Bits; CODE_COUNT]) -> Parts
    requires { parts.n ≤ code_count }
    ensures { (result.n ≡ parts.n) × (lists_of result ≡ ordered (edge_of to) (lists_of parts)) }
{
    let mut out = Parts::new();
    for &part in parts.sets[..parts.n].iter().rev() {
        let c = CodeSet { bits: part }.first();
        let at = first_reached(out, to[c as usize]);
        out = cut_parts::inserted(out, at, part);
    }
    out
}

// Sequence: the groups of codes that belong together, in the order of reach.
pub fn sequence_parts(rows: [Bits; CODE_COUNT], keep: CodeSet) -> Parts
    ensures { (result.n ≤ code_count) × (lists_of result ≡ in_sequence rows keep.bits) }
{
    let to = graph_reach::reach(rows);
    let from = graph_reverse::transpose(to);
    let parts = cut_components::components(to, from, Bond::Alike, keep);
    in_order(parts, to)
}
