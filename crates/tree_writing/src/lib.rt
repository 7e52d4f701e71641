// Writing an entry of a tree block.
#![tactic(auto)]

ghost use Rattle.std.specs.Prelude.{◌≡◌, ◌≤◌, ◌<◌, length};
ghost use Rattle.rules.specs.Calls.{entry_count};
ghost use Rattle.tree_writing.specs.Writing.{with_entry};

// Writes an entry: kind, argument, size, zero.
pub fn put(tree: &mut [u8], at: usize, kind: u8, argument: u8, size: u8)
    requires { (512 ≤ length tree.old) × (at < entry_count) }
    ensures { tree.new ≡ with_entry tree.old at kind argument size }
{
    let base = at * 4;
    tree[base..base + 4].copy_from_slice(&[kind, argument, size, 0]);
}
