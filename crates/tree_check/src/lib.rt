// Tree blocks: the check of a tree, one rule for a node and one for a list. A tree stays a slice of known length, as the calls lend it.
#![tactic(auto)]

ghost use Rattle.std.specs.Prelude.{◌≡◌, ◌+◌, ◌≤◌, ◌<◌, length};
ghost use Rattle.rules.specs.Calls.{entry_count, formed, checking};
ghost use Rattle.tree_check.specs.Checks.{NodeSays, ListSays};

use code_sets::CodeSet;
use rules::{Answer, CHECK_PLACE, ENTRY_COUNT, Reason, Refusal, TREE_SIZE};
use tree_entries::{Entry, Met};

// The rule for a node. One that would go past the end is broken at once, so that no block takes more stack than a tree.
#[cycle(list_node)]
fn node(tree: &[u8], at: usize, end: usize, seen: CodeSet) -> Option<Met>
    requires { (length tree.now ≡ 512) × (at < end) × (end ≤ entry_count) }
    ensures { NodeSays tree.now at end seen result }
{
    match tree_entries::entry_at(tree, at, seen)? {
        Entry::Settled(met) => Some(met),
        Entry::Operator { children, size } => {
            let stop = at + (size as usize);
            if end < stop || size <= children {
                return None;
            }
            let below = list(tree, at + 1, children, stop, seen)?;
            if below.next == stop {
                Some(below)
            } else {
                None
            }
        }
    }
}

// The rule for a list of nodes: a loop, so that siblings take no stack. Each node leaves an entry for each that follows it.
#[cycle(list_node)]
fn list(tree: &[u8], at: usize, count: u8, end: usize, seen: CodeSet) -> Option<Met>
    requires { (length tree.now ≡ 512) × (at + count ≤ end) × (end ≤ entry_count) }
    ensures { ListSays tree.now at count end seen result }
{
    let mut met = Met { next: at, seen };
    for done in 0..count {
        let last = end + 1 - (count - done) as usize;
        met = node(tree, met.next, last, met.seen)?;
    }
    Some(met)
}

// The rules for a whole block: the number of nodes.
pub fn formed(tree: &[u8]) -> Answer
    requires { length tree.now ≡ 512 }
    ensures { result ≡ formed tree.now }
{
    let broken = Err(Refusal {
        reason: Reason::BadTree,
        place: 0,
    });
    let Some(root) = node(tree, 0, ENTRY_COUNT, CodeSet::none()) else {
        return broken;
    };
    let end = root.next * 4;
    if block_padding::first_set(&tree[end..CHECK_PLACE]) < CHECK_PLACE - end {
        return broken;
    }
    Ok(root.next)
}

// Checking a tree: the number of nodes.
#[tactic(auto, unfolding(rules::specs::Calls::checking))]
pub fn check(tree: &[u8]) -> Answer
    ensures { result ≡ checking tree.now }
{
    if tree.len() != TREE_SIZE || !block_seal::check_right(tree) {
        return Err(Refusal {
            reason: Reason::TreeBlock,
            place: 0,
        });
    }
    formed(tree)
}
