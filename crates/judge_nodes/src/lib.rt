// The rows of one node, by its kind. Row i of entry v, `work[v * 64 + i]`, has bit j set where the events of v's codes
// between the places i and j of the episode are an episode of the tree at v.
#![tactic(auto)]

ghost use Rattle.std.specs.Prelude.{◌≡◌, ◌&&◌, ℕ, ◌+◌, ◌≤◌, ◌<◌, length};
ghost use Rattle.rules.specs.TreeBlock.{op_of, size_at};
ghost use Rattle.rules.specs.Calls.{entry_count};
ghost use Rattle.code_sets.specs.Bits.{has};
ghost use Rattle.judge_rows.specs.Rows.{at, between, clear, less, kept};
ghost use Rattle.judge_subtrees.specs.Entries.{Sized, Subtrees, labelled};
ghost use Rattle.judge_nodes.specs.Children.{against, ListMeans, LoopMeans};
ghost use Rattle.judge_nodes.specs.Nodes.{Node, NodeMeans};

use code_sets::CodeSet;
use rules::{ACTIVITY, Operator, PLACE_COUNT, SILENT};

// A node whose children are read: its tree, the episode, the codes that they are read against, and the rows so far.
#[derive(Clone, Copy)]
struct Parent<'a> {
    tree: &'a [u8],
    episode: &'a [u8],
    codes: CodeSet,
    work: &'a [u64],
    ghost sized: { Sized tree.now episode.now work.now },
}

impl<'a> Parent<'a> {
    // The rows of the child of n entries at v: none of the others' codes between.
    fn child_rows(&self, v: usize, n: usize) -> [u64; PLACE_COUNT]
        requires { (v < entry_count) × (v + n ≤ entry_count) }
        ensures { (i j : ℕ) → at result i j ≡ (kept self.now.work.now v i j && between (clear (less (has self.now.codes.bits) (labelled self.now.tree.now v n))) self.now.episode.now i j) }
    {
        let own = judge_subtrees::codes_in(self.tree, v, n);
        judge_rows::rows_of(self.work, v, self.episode, self.codes.minus(own))
    }

    // The rows of the children from `from` up to `end`, joined by the operator of their parent. A loop by hand: a step is the child's own size.
    fn list_rows(&self, operator: Operator, from: usize, end: usize) -> [u64; PLACE_COUNT]
        requires { Subtrees self.now.tree.now from end × (end ≤ entry_count) × (from < end) }
        ensures { ListMeans self.now.tree.now self.now.episode.now self.now.work.now (op_of operator) (has self.now.codes.bits) from end (at result) }
    {
        let first = judge_subtrees::size_at(self.tree, from);
        let mut rows = self.child_rows(from, first);
        let mut v = from + first;
        while v < end {
            let n = judge_subtrees::size_at(self.tree, v);
            let child = self.child_rows(v, n);
            judge_joins::join_rows(operator, &mut rows, &child);
            v += n;
        }
        rows
    }

    // The rows of a loop: its first child is the body, the others are the redos.
    fn loop_rows(&self, from: usize, end: usize) -> [u64; PLACE_COUNT]
        requires { Subtrees self.now.tree.now from end × (end ≤ entry_count) × (from + size_at self.now.tree.now from < end) }
        ensures { LoopMeans self.now.tree.now self.now.episode.now self.now.work.now (has self.now.codes.bits) from end (at result) }
    {
        let n = judge_subtrees::size_at(self.tree, from);
        let body = self.child_rows(from, n);
        let redo = self.list_rows(Operator::Loop, from + n, end);
        judge_joins::loop_rows(&body, &redo)
    }
}

// The codes that a child of this node is read against: all of the node's, but none for a parallel, where each child has its own.
#[tactic(auto, using(code_sets::proofs::BitLaws::has_zero))]
fn codes_against(tree: &[u8], operator: Operator, v: usize, n: usize) -> CodeSet
    requires { (v + n ≤ entry_count) × (length tree.now ≡ 512) }
    ensures { (c : ℕ) → has result.bits c ≡ against (op_of operator) (labelled tree.now v n) c }
{
    if operator == Operator::Parallel {
        return CodeSet::none();
    }
    judge_subtrees::codes_in(tree, v, n)
}

// The rows of the node at entry v, where those after it have their rows.
#[tactic(auto, using(crate::proofs::NodeLaws::leaf_node))]
pub fn node_rows(tree: &[u8], v: usize, episode: &[u8], work: &[u64]) -> [u64; PLACE_COUNT]
    requires { Node tree.now episode.now work.now v }
    ensures { NodeMeans tree.now episode.now v (at result) }
{
    match tree[v * 4] {
        SILENT => judge_rows::clear_rows(episode, CodeSet::none()),
        ACTIVITY => judge_rows::leaf_rows(episode, tree[v * 4 + 1]),
        _ => {
            let operator = judge_subtrees::operator_at(tree, v);
            let n = judge_subtrees::size_at(tree, v);
            let parent = Parent {
                tree,
                episode,
                codes: codes_against(tree, operator, v, n),
                work,
            };
            if operator == Operator::Loop {
                parent.loop_rows(v + 1, v + n)
            } else {
                parent.list_rows(operator, v + 1, v + n)
            }
        }
    }
}
