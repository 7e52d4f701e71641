// Writing what has no cut into a tree's block: silent, a leaf, a flower.
#![tactic(auto)]

ghost use Rattle.std.specs.Prelude.{◌≡◌, ◌+◌, ◌≤◌, ◌<◌, length};
ghost use Rattle.rules.specs.Trees.{size};
ghost use Rattle.rules.specs.Mining.{leaves, flower_of};
ghost use Rattle.rules.specs.Calls.{code_count, entry_count};
ghost use Rattle.code_sets.specs.Bits.{listed};
ghost use Rattle.mine_plan.specs.Plans.{base_tree};
ghost use Rattle.mine_bases.specs.Writing.{WroteTree, WroteAll};

use code_sets::CodeSet;
use mine_plan::Base;
use rules::{ACTIVITY, LOOP, SILENT};

// A number below 256 as a byte: what it asks is in its contract, so a cast is enough.
pub fn byte(n: usize) -> u8
    requires { n < 256 }
    ensures { result ≡ n }
{
    n as u8
}

// Writes a leaf for each code of a set, in ascending order.
fn leaves(tree: &mut [u8], at: usize, set: CodeSet) -> usize
    requires { (length tree.old ≡ 512) × (at + length (listed code_count set.bits) ≤ entry_count) }
    ensures { WroteAll (leaves (listed code_count set.bits)) at tree.old result tree.new }
{
    let mut next = at;
    for c in set.codes() {
        tree_writing::put(tree, next, ACTIVITY, c, 1);
        next += 1;
    }
    next
}

// Writes the flower of a set: a loop of silent and then every code.
fn flower(tree: &mut [u8], at: usize, set: CodeSet) -> usize
    requires { (length tree.old ≡ 512) × (at + length (listed code_count set.bits) + 2 ≤ entry_count) }
    ensures { WroteTree (flower_of (listed code_count set.bits)) at tree.old result tree.new }
{
    let n = set.count() as usize;
    tree_writing::put(tree, at, LOOP, byte(n + 1), byte(n + 2));
    tree_writing::put(tree, at + 1, SILENT, 0, 1);
    leaves(tree, at + 2, set)
}

// Writes what has no cut.
pub fn base(tree: &mut [u8], at: usize, base: Base, set: CodeSet) -> usize
    requires { (length tree.old ≡ 512) × (at + size (base_tree base (listed code_count set.bits)) ≤ entry_count) }
    ensures { WroteTree (base_tree base (listed code_count set.bits)) at tree.old result tree.new }
{
    match base {
        Base::Silent => {
            tree_writing::put(tree, at, SILENT, 0, 1);
            at + 1
        }
        Base::Leaf => {
            tree_writing::put(tree, at, ACTIVITY, set.first(), 1);
            at + 1
        }
        Base::Flower => flower(tree, at, set),
    }
}
