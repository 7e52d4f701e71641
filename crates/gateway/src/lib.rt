// The calls for a caller in C, who finds them in `gateway_c`: each answers one number, the value or a refusal's number and place (specs/Packed).
#![tactic(auto)]

ghost use Rattle.std.specs.Prelude.{◌≡◌};
ghost use Rattle.rules.specs.Calls.{reading, checking};
ghost use Rattle.gateway.specs.Packed.{packed, AddPacked, MinePacked, JudgePacked};

use rules::{Answer, Verdict};

// The value; or the number of a refusal's reason and, below it, the place: the one number that C has for an answer.
fn pack(answer: Answer) -> u64
    ensures { result ≡ packed answer }
{
    match answer {
        Ok(n) => n as u64 % 4294967296,
        Err(refusal) => u64::from(u8::from(refusal.reason)) * 4294967296
            + refusal.place as u64 % 4294967296,
    }
}

// Reading the record at a place of a log block: the place of the next. The record's codes are the bytes from at + 1 up to it.
pub fn arrabolzu_read(block: &[u8], at: usize) -> u64
    ensures { result ≡ packed (reading 1 block.now at) }
{
    pack(log_records::read(block, at))
}

// Adding an episode to a log block: the new count.
pub fn arrabolzu_add(block: &mut [u8], episode: &[u8]) -> u64
    ensures { AddPacked block.old episode.now result block.new }
{
    pack(log_adding::add(block, episode))
}

// Mining a log: the number of nodes, and the tree in the first 512 bytes of `out`.
pub fn arrabolzu_mine(log: &[u8], out: &mut [u8], work: &mut [u8]) -> u64
    ensures { MinePacked log.now out.old work.old result out.new work.new }
{
    pack(mine_call::mine(log, out, work))
}

// Checking a tree block: the number of nodes.
pub fn arrabolzu_check(tree: &[u8]) -> u64
    ensures { result ≡ packed (checking tree.now) }
{
    pack(tree_check::check(tree))
}

// Judging an episode against a tree: 1 where it fits, 0 where it does not.
pub fn arrabolzu_judge(tree: &[u8], episode: &[u8], work: &mut [u64]) -> u64
    ensures { JudgePacked tree.now episode.now work.old result work.new }
{
    let verdict = judge_call::judge(tree, episode, work);
    pack(verdict.map(|v| usize::from(v == Verdict::Fits)))
}
