// Loop: the body, then the redo parts.
#![tactic(auto)]

ghost use Rattle.std.specs.Prelude.{◌≡◌, ◌≤◌};
ghost use Rattle.rules.specs.Calls.{code_count};
ghost use Rattle.graph_rows.specs.Edges.{meant};
ghost use Rattle.graph_reverse.specs.Reverse.{Back};
ghost use Rattle.cut_parts.specs.Sets.{lists_of};
ghost use Rattle.cut_loop.specs.Roomed.{roomed};

use code_sets::{Bits, CodeSet};
use cut_components::Bond;
use cut_parts::Parts;
use graph_rows::Graph;
use rules::CODE_COUNT;

// Loop: the body, then the components without starts and ends that are redo parts.
pub fn loop_parts(g: Graph, cols: [Bits; CODE_COUNT], keep: CodeSet) -> Parts
    requires { Back g.rows cols }
    ensures { (result.n ≤ code_count) × (lists_of result ≡ roomed (meant g keep.bits)) }
{
    let border = keep.meet(g.starts.union(g.ends));
    let rest = keep.minus(border);
    let unfit = cut_redos::unfit_codes(g, cols, border.bits);
    let rows = g.rows;
    let mut redos = cut_components::components(rows, cols, Bond::Either, rest);
    redos.retain(|part| part & unfit == 0);
    if redos.n < CODE_COUNT {
        return cut_parts::inserted(redos, 0, cut_parts::remaining(redos, keep.bits));
    }
    Parts::new()
}
