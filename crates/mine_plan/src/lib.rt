// What is made of a view's sublog: silent, a leaf, a flower, or a cut with its parts.
#![tactic(auto)]

ghost use Rattle.std.specs.Prelude.{◌≡◌, ◌≤◌};
ghost use Rattle.rules.specs.Calls.{code_count};
ghost use Rattle.code_sets.specs.Bits.{listed};
ghost use Rattle.graph_rows.specs.Edges.{edge_of};
ghost use Rattle.mine_places.specs.Places.{episodes_of, Listed};
ghost use Rattle.mine_plan.specs.Plans.{lone, CutPlan, Planned};

use code_sets::{Bits, CodeSet};
use cut_first::Cut;
use graph_rows::Graph;
use mine_views::View;
use rules::{CODE_COUNT, Operator};

// What has no cut.
#[derive(Clone, Copy, Debug, PartialEq, Eq)]
pub enum Base {
    Silent,
    Leaf,
    Flower,
}

#[derive(Clone, Copy, Debug, PartialEq, Eq)]
pub enum Made {
    Uncut(Base),
    Cut(Operator),
}

// A fixed array with a number, which is a byte: there is no heap, and a smaller plan is a smaller frame of `mine_node`, which calls itself.
// A cut's parts are the first n sets; `missed` has the numbers of those whose views have the empty episode.
#[derive(Clone, Copy, Debug, PartialEq, Eq)]
pub struct Plan {
    pub made: Made,
    pub n: u8,
    pub sets: [Bits; CODE_COUNT],
    pub missed: Bits,
}

// Has the graph one code that never follows itself?
fn alone(g: Graph, keep: CodeSet) -> bool
    ensures { result ≡ lone (edge_of g.rows) (listed code_count keep.bits) }
{
    if keep.count() != 1 {
        return false;
    }
    let c = keep.first();
    let row = CodeSet {
        bits: g.rows[c as usize],
    };
    !row.has(c)
}

// The plan of a sublog that has no cut.
fn uncut(base: Base) -> Plan
    ensures { (result.made ≡ Made.Uncut base) × (result.n ≡ 0) }
{
    Plan {
        made: Made::Uncut(base),
        n: 0,
        sets: [0; CODE_COUNT],
        missed: 0,
    }
}

// A cut as a plan: the parts that a sub-episode lacks are looked for.
fn cut_plan(log: &[u8], places: &[u8], w: usize, v: View, cut: Cut) -> Plan
    requires { Listed w log.now places.now × (cut.parts.n ≤ code_count) }
    ensures { CutPlan (episodes_of w log.now places.now) v cut.operator cut.parts result }
{
    let Cut { operator, parts } = cut;
    let own = &parts.sets[..parts.n];
    Plan {
        made: Made::Cut(operator),
        n: parts.n as u8,
        sets: parts.sets,
        missed: mine_missed::missed_parts(log, places, w, v, operator, own),
    }
}

// What is made of a view's sublog.
pub fn planned(log: &[u8], places: &[u8], w: usize, v: View) -> Plan
    requires { Listed w log.now places.now }
    ensures { Planned (episodes_of w log.now places.now) v result }
{
    let View { keep, bare, .. } = v;
    if keep.is_empty() {
        return uncut(Base::Silent);
    }
    if bare {
        return uncut(Base::Flower);
    }
    let g = mine_graph::graph_of(log, places, w, v);
    if alone(g, keep) {
        return uncut(Base::Leaf);
    }
    match cut_first::cut_of(g, keep) {
        Some(cut) => cut_plan(log, places, w, v, cut),
        None => uncut(Base::Flower),
    }
}
