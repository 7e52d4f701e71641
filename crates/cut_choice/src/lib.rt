// Choice: the connected components of a graph.
#![tactic(auto)]

ghost use Rattle.std.specs.Prelude.{◌≡◌, ◌≤◌};
ghost use Rattle.rules.specs.Mining.{choice_parts};
ghost use Rattle.rules.specs.Calls.{code_count};
ghost use Rattle.graph_rows.specs.Edges.{meant};
ghost use Rattle.graph_reverse.specs.Reverse.{Back};
ghost use Rattle.cut_parts.specs.Sets.{lists_of};

use code_sets::{Bits, CodeSet};
use cut_components::Bond;
use cut_parts::Parts;
use graph_rows::Graph;
use rules::CODE_COUNT;

// Choice: the connected components, edge directions ignored.
pub fn choice_parts(g: Graph, cols: [Bits; CODE_COUNT], keep: CodeSet) -> Parts
    requires { Back g.rows cols }
    ensures { (result.n ≤ code_count) × (lists_of result ≡ choice_parts (meant g keep.bits)) }
{
    let rows = g.rows;
    cut_components::components(rows, cols, Bond::Either, keep)
}
