// The tree of a view's sublog, written node by node.
#![tactic(auto)]

ghost use Rattle.rules.specs.Mining.{mined};
ghost use Rattle.rules.specs.Calls.{code_count};
ghost use Rattle.mine_places.specs.Places.{episodes_of, Listed};
ghost use Rattle.mine_views.specs.Sublogs.{sublog};
ghost use Rattle.mine_bases.specs.Writing.{WroteTree};
ghost use Rattle.mine_nodes.specs.Ready.{Ready};

use code_sets::CodeSet;
use mine_plan::Made;
use mine_views::View;

// Writes the tree of a view's sublog from an entry on, and answers the next entry.
pub fn mine_node(log: &[u8], places: &[u8], w: usize, tree: &mut [u8], v: View, at: usize) -> usize
    requires { Listed w log.now places.now × Ready (episodes_of w log.now places.now) v tree.old at }
    ensures { WroteTree (mined code_count (sublog v (episodes_of w log.now places.now))) at tree.old result tree.new }
{
    // Kept whole, as taken apart it would stand on the stack of every level twice.
    let plan = mine_plan::planned(log, places, w, v);
    let operator = match plan.made {
        Made::Uncut(base) => return mine_bases::base(tree, at, base, v.keep),
        Made::Cut(operator) => operator,
    };
    let mut next = at + 1;
    for i in 0..plan.n {
        let part = CodeSet {
            bits: plan.sets[i as usize],
        };
        let u = mine_views::part_of(v, operator, part, (plan.missed >> i) % 2 == 1);
        next = mine_node(log, places, w, tree, u, next);
    }
    tree_writing::put(
        tree,
        at,
        u8::from(operator),
        plan.n,
        mine_bases::byte(next - at),
    );
    next
}
