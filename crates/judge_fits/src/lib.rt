// Whether a tree has an episode: the rows of every node, from the last to the first, and what the root's tell.
#![tactic(auto)]

ghost use Rattle.std.specs.Prelude.{◌≡◌, drop};
ghost use Rattle.rules.specs.Words.{all};
ghost use Rattle.rules.specs.Calls.{cleared};
ghost use Rattle.code_sets.specs.Bits.{has};
ghost use Rattle.judge_nodes.specs.Children.{Ready};
ghost use Rattle.judge_nodes.specs.Nodes.{Node};
ghost use Rattle.judge_fits.specs.Fits.{Nodes, Placed, FitSays};

use code_sets::CodeSet;
use rules::JUDGE_WORK;

// The rows of the node at entry v go to their place. Tree, episode and work stay parameters: a struct that two functions take would be longer.
fn place_rows(tree: &[u8], v: usize, episode: &[u8], work: &mut [u64])
    requires { Node tree.now episode.now work.old v }
    ensures { Placed tree.now episode.now v work.old work.new }
{
    let rows = judge_nodes::node_rows(tree, v, episode, &work[..]);
    judge_rows::store_rows(work, v, &rows);
}

// Every entry's rows, from the last to the first. The root has a call of its own: so place_rows is compiled by itself,
// and its tables are not on the stack while the tree is checked.
fn fill(tree: &[u8], n: usize, episode: &[u8], work: &mut [u64])
    requires { Nodes tree.now episode.now work.old n }
    ensures { Ready tree.now episode.now work.new 0 n × (drop 8128 work.new ≡ drop 8128 work.old) }
{
    for v in (1..n).rev() {
        place_rows(tree, v, episode, work);
    }
    place_rows(tree, 0, episode, work);
}

// Whether the tree of n entries has the episode: a code that no leaf has is a misfit. The numbers of work that judging uses become zero.
pub fn fits(tree: &[u8], n: usize, episode: &[u8], work: &mut [u64]) -> bool
    requires { Nodes tree.now episode.now work.old n }
    ensures { FitSays tree.now n episode.now result × (work.new ≡ cleared 8128 work.old) }
{
    fill(tree, n, episode, work);
    let whole = work[0];
    work[..JUDGE_WORK].fill(0);
    let codes = judge_subtrees::codes_in(tree, 0, n);
    episode.iter().all(|&c| codes.has(c)) && (whole >> episode.len()) % 2 == 1
}
