// The static library: the calls of `gateway` under their names in C.
#![tactic(auto)]

ghost use Rattle.std.specs.Prelude.{◌≡◌};
ghost use Rattle.rules.specs.Calls.{reading, checking};
ghost use Rattle.gateway.specs.Packed.{packed, AddPacked, MinePacked, JudgePacked};

// Reading the record at a place of a log block: the place of the next. The record's codes are the bytes from at + 1 up to it.
#[unsafe(no_mangle)]
pub extern "C" fn arrabolzu_read(block: &[u8], at: usize) -> u64
    ensures { result ≡ packed (reading 1 block.now at) }
{
    gateway::arrabolzu_read(block, at)
}

// Adding an episode to a log block: the new count.
#[unsafe(no_mangle)]
pub extern "C" fn arrabolzu_add(block: &mut [u8], episode: &[u8]) -> u64
    ensures { AddPacked block.old episode.now result block.new }
{
    gateway::arrabolzu_add(block, episode)
}

// Mining a log: the number of nodes, and the tree in the first 512 bytes of `out`.
#[unsafe(no_mangle)]
pub extern "C" fn arrabolzu_mine(log: &[u8], out: &mut [u8], work: &mut [u8]) -> u64
    ensures { MinePacked log.now out.old work.old result out.new work.new }
{
    gateway::arrabolzu_mine(log, out, work)
}

// Checking a tree block: the number of nodes.
#[unsafe(no_mangle)]
pub extern "C" fn arrabolzu_check(tree: &[u8]) -> u64
    ensures { result ≡ packed (checking tree.now) }
{
    gateway::arrabolzu_check(tree)
}

// Judging an episode against a tree: 1 where it fits, 0 where it does not.
#[unsafe(no_mangle)]
pub extern "C" fn arrabolzu_judge(tree: &[u8], episode: &[u8], work: &mut [u64]) -> u64
    ensures { JudgePacked tree.now episode.now work.old result work.new }
{
    gateway::arrabolzu_judge(tree, episode, work)
}
