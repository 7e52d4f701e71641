// The first cut of a graph: choice, sequence, parallel or loop.
#![tactic(auto)]

ghost use Rattle.graph_reverse.specs.Reverse.{Back};
ghost use Rattle.cut_first.specs.Cuts.{WithoutLoop, CutOf};

use code_sets::{Bits, CodeSet};
use cut_parts::Parts;
use graph_rows::Graph;
use rules::{CODE_COUNT, Operator};

// A cut: its operator, and two parts or more.
#[derive(Clone, Copy, Debug, PartialEq, Eq)]
pub struct Cut {
    pub operator: Operator,
    pub parts: Parts,
}

// The first of choice, sequence and parallel. Chained by `or_else` it takes 232 bytes more of stack.
fn cut_without_loop(g: Graph, cols: [Bits; CODE_COUNT], keep: CodeSet) -> Option<Cut>
    requires { Back g.rows cols }
    ensures { WithoutLoop g keep.bits result }
{
    let rows = g.rows;
    let choice = cut_choice::choice_parts(g, cols, keep);
    if 2 <= choice.n {
        return Some(Cut {
            operator: Operator::Choice,
            parts: choice,
        });
    }
    let sequence = cut_sequence::sequence_parts(rows, keep);
    if 2 <= sequence.n {
        return Some(Cut {
            operator: Operator::Sequence,
            parts: sequence,
        });
    }
    let parallel = cut_parallel::parallel_parts(g, cols, keep);
    if 2 <= parallel.n {
        return Some(Cut {
            operator: Operator::Parallel,
            parts: parallel,
        });
    }
    None
}

// The first cut with two parts or more; fewer than two codes have a loop at most.
pub fn cut_of(g: Graph, keep: CodeSet) -> Option<Cut>
    ensures { CutOf g keep.bits result }
{
    let rows = g.rows;
    let cols = graph_reverse::transpose(rows);
    if 2 <= keep.count() {
        let cut = cut_without_loop(g, cols, keep);
        if cut.is_some() {
            return cut;
        }
    }
    let parts = cut_loop::loop_parts(g, cols, keep);
    if 2 <= parts.n {
        return Some(Cut {
            operator: Operator::Loop,
            parts,
        });
    }
    None
}
