// What an entry of a tree block tells by itself. A tree stays a slice of known length, as the calls lend it.
#![tactic(auto)]

ghost use Rattle.std.specs.Prelude.{◌≡◌, ◌<◌, length};
ghost use Rattle.rules.specs.TreeBlock.{silent_rule, leaf_rule};
ghost use Rattle.rules.specs.Calls.{code_count, entry_count};
ghost use Rattle.tree_entries.specs.Entries.{LeafSays, EntrySays};

use code_sets::CodeSet;
use rules::{ACTIVITY, CHOICE, ENTRY_COUNT, HEARTBEAT, LOOP, NO_CODE, SILENT};

// Where the rule for a node or a list ends, and the codes of leaves met so far.
#[derive(Clone, Copy, Debug, PartialEq, Eq)]
pub struct Met {
    pub next: usize,
    pub seen: CodeSet,
}

// What an entry tells by itself: all of its node, or that its list of children decides.
#[derive(Clone, Copy, Debug, PartialEq, Eq)]
pub enum Entry {
    Settled(Met),
    Operator { children: u8, size: u8 },
}

fn silent(at: usize, argument: u8, size: u8, seen: CodeSet) -> Option<Met>
    requires { at < entry_count }
    ensures { LeafSays at seen (silent_rule at argument size) result }
{
    if argument != 0 || size != 1 {
        return None;
    }
    Some(Met { next: at + 1, seen })
}

// A code, no heartbeat, that no leaf before it has.
fn leaf(at: usize, argument: u8, size: u8, seen: CodeSet) -> Option<Met>
    requires { at < entry_count }
    ensures { LeafSays at seen (leaf_rule code_count at argument size) result }
{
    if NO_CODE <= argument || argument == HEARTBEAT || size != 1 || seen.has(argument) {
        return None;
    }
    Some(Met {
        next: at + 1,
        seen: seen.with(argument),
    })
}

// The entry by its kind; none where it is broken.
pub fn entry_at(tree: &[u8], at: usize, seen: CodeSet) -> Option<Entry>
    requires { length tree.now ≡ 512 }
    ensures { EntrySays tree.now at seen result }
{
    if ENTRY_COUNT <= at {
        return None;
    }
    let base = at * 4;
    let kind = tree[base];
    let argument = tree[base + 1];
    let size = tree[base + 2];
    if tree[base + 3] != 0 {
        return None;
    }
    match kind {
        SILENT => Some(Entry::Settled(silent(at, argument, size, seen)?)),
        ACTIVITY => Some(Entry::Settled(leaf(at, argument, size, seen)?)),
        CHOICE..=LOOP if 2 <= argument => Some(Entry::Operator {
            children: argument,
            size,
        }),
        _ => None,
    }
}
