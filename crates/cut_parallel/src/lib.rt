// Parallel: parts made of the components of the codes that are not joined both ways, each with a start and an end.
#![tactic(auto)]

ghost use Rattle.std.specs.Prelude.{◌≡◌, List, ℕ, ◌≤◌};
ghost use Rattle.rules.specs.Words.{Has};
ghost use Rattle.rules.specs.Mining.{with_rest, parallel_parts};
ghost use Rattle.rules.specs.Calls.{code_count};
ghost use Rattle.code_sets.specs.Bits.{listed};
ghost use Rattle.graph_rows.specs.Edges.{meant};
ghost use Rattle.graph_reverse.specs.Reverse.{Back};
ghost use Rattle.cut_parts.specs.Sets.{sets_of, lists_of};
ghost use Rattle.cut_parallel.specs.Making.{made_on};

use code_sets::{Bits, CodeSet};
use cut_components::Bond;
use cut_parts::Parts;
use graph_rows::Graph;
use rules::CODE_COUNT;

// The parts that components make: those with a start and an end, and the pairs of those with only starts and only ends.
fn made_parts(mut parts: Parts, starts: Bits, ends: Bits) -> Parts
    requires { parts.n ≤ code_count }
    ensures { (result.n ≤ parts.n) × (sets_of result ≡ made_on starts ends (sets_of parts)) }
{
    let only_starts = cut_pairs::places_with(parts, starts, ends);
    let only_ends = cut_pairs::places_with(parts, ends, starts);
    cut_pairs::join_pairs(&mut parts.sets, only_starts, only_ends);
    parts.retain(|part| part & starts != 0 && part & ends != 0);
    parts
}

// The codes that stand in no part join the first, the one with the smallest code.
fn with_rest(mut parts: Parts, codes: Bits) -> Parts
    requires { (parts.n ≤ code_count) × ((p : List ℕ) → Has p (lists_of parts) → (c : ℕ) → Has c p → Has c (listed code_count codes)) }
    ensures { (result.n ≡ parts.n) × (lists_of result ≡ with_rest (listed code_count codes) (lists_of parts)) }
{
    let rest = cut_parts::remaining(parts, codes);
    parts.sets[0] |= rest;
    parts
}

// Parallel: the parts made of the components of codes joined unless both edges exist.
pub fn parallel_parts(g: Graph, cols: [Bits; CODE_COUNT], keep: CodeSet) -> Parts
    requires { Back g.rows cols }
    ensures { (result.n ≤ code_count) × (lists_of result ≡ parallel_parts (meant g keep.bits)) }
{
    let rows = g.rows;
    let components = cut_components::components(rows, cols, Bond::NotBoth, keep);
    let made = made_parts(components, g.starts.bits, g.ends.bits);
    with_rest(made, keep.bits)
}
