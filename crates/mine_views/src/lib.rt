// Sublogs as views of the whole log: nothing of the log is copied.
#![tactic(auto)]

ghost use Rattle.std.specs.Prelude.{◌≡◌};
ghost use Rattle.rules.specs.Mining.{Log};
ghost use Rattle.rules.specs.TreeBlock.{op_of};
ghost use Rattle.rules.specs.Calls.{code_count};
ghost use Rattle.code_sets.specs.Bits.{listed};
ghost use Rattle.mine_views.specs.Sublogs.{sight, part_sight};

use code_sets::CodeSet;
use rules::Operator;

// The codes that are events of the sublog, those that end a sub-episode, and whether the empty episode is in it beside those.
#[derive(Clone, Copy, Debug, PartialEq, Eq)]
pub struct View {
    pub keep: CodeSet,
    pub breaks: CodeSet,
    pub bare: bool,
}

// The view of a part under a cut by an operator; `bare` tells whether the empty episode is in it.
pub fn part_of(v: View, operator: Operator, part: CodeSet, bare: bool) -> View
    ensures { (l : Log) → bare ≡ (part_sight (op_of operator) (listed code_count part.bits) l (sight v)).bare → sight result ≡ part_sight (op_of operator) (listed code_count part.bits) l (sight v) }
{
    let breaks = if operator == Operator::Loop {
        v.breaks.union(v.keep.minus(part))
    } else {
        v.breaks
    };
    View {
        keep: part,
        breaks,
        bare,
    }
}
