// What the entries of a tree block tell: the operator of a node, the size of a tree, the codes of its leaves. A tree stays a slice of known length, as the calls lend it.
#![tactic(auto)]

ghost use Rattle.std.specs.Prelude.{◌≡◌, ℕ, ◌+◌, ◌≤◌, ◌<◌, length};
ghost use Rattle.rules.specs.TreeBlock.{operator_of, op_of, kind_at, size_at};
ghost use Rattle.rules.specs.Calls.{entry_count};
ghost use Rattle.code_sets.specs.Bits.{has};
ghost use Rattle.judge_subtrees.specs.Entries.{labelled};

use code_sets::CodeSet;
use rules::{ACTIVITY, Operator};

// The operator of the node at entry v: the conversion, under the name that callers have for it.
pub fn operator_at(tree: &[u8], v: usize) -> Operator
    requires { (v < entry_count) × (length tree.now ≡ 512) }
    ensures { op_of result ≡ operator_of (kind_at tree.now v) }
{
    Operator::from(tree[v * 4])
}

// The number of entries of the tree at entry v.
pub fn size_at(tree: &[u8], v: usize) -> usize
    requires { (v < entry_count) × (length tree.now ≡ 512) }
    ensures { result ≡ size_at tree.now v }
{
    tree[v * 4 + 2] as usize
}

// The codes of the leaves among n entries from v on.
#[tactic(auto, using(code_sets::proofs::AnyLaws::any_more, code_sets::proofs::BitLaws::has_zero), unfolding(crate::specs::Entries::labelled, code_sets::specs::Bits::any_below))]
pub fn codes_in(tree: &[u8], v: usize, n: usize) -> CodeSet
    requires { (v + n ≤ entry_count) × (length tree.now ≡ 512) }
    ensures { (c : ℕ) → has result.bits c ≡ labelled tree.now v n c }
{
    let mut codes = CodeSet::none();
    for k in 0..n {
        let e = (v + k) * 4;
        // A kind as it lies in the block.
        if tree[e] == ACTIVITY {
            codes = codes.with(tree[e + 1]);
        }
    }
    codes
}
