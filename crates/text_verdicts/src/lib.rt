// The lines of verdicts, one for each episode of a log.
#![tactic(auto)]

ghost use Rattle.std.specs.Prelude.{◌≡◌, [], ◌∷◌, ◌+◌, ◌≤◌, length, get_or};
ghost use Rattle.rules.specs.Refusals.{Given};
ghost use Rattle.rules.specs.LogBlock.{records_at, block_episodes};
ghost use Rattle.rules.specs.Calls.{top_code, lent, log_sound, checking};
ghost use Rattle.text_verdicts.specs.Lines.{fitting, Lines, LogLines};

use rules::{BLOCK_SIZE, Refusal, Verdict};

// What is printed of a verdict.
fn fits(v: Result<Verdict, Refusal>) -> bool
    ensures { result ≡ fitting v }
{
    matches!(v, Ok(Verdict::Fits))
}

// The line of an episode's verdict.
fn verdict_line(
    tree: &[u8],
    episode: &[u8],
    number: usize,
    work: &mut [u64],
    text: &mut [u8],
    at: usize,
) -> usize
    requires { Given (checking tree.now) × Given (lent 1 episode.now) × (8128 ≤ length work.old) × (at + 13 ≤ length text.old) }
    ensures { Lines tree.now (episode.now ∷ []) [] number (number + 1) text.old at text.new result }
{
    let v = judge_call::judge(tree, episode, work);
    text_replies::write_verdict(number, fits(v), text, at)
}

// A line for each record of a block, counted from `first`.
#[tactic(auto, using(log_records::proofs::RecordLaws::next_fits))]
fn block_lines(
    tree: &[u8],
    block: &[u8],
    first: usize,
    work: &mut [u64],
    text: &mut [u8],
    at: usize,
) -> usize
    requires { Given (checking tree.now) × Given (records_at 1 top_code (get_or block.now 0 0) block.now 1) × (length block.now ≡ 512) × (first ≤ 4080) × (8128 ≤ length work.old) × (at + 3315 ≤ length text.old) }
    ensures { Lines tree.now (block_episodes 1 block.now) [] first (first + get_or block.now 0 0) text.old at text.new result }
{
    let mut place: usize = 1;
    let mut next = at;
    // A place by hand: the step is the record's own length.
    for number in first..first + usize::from(block[0]) {
        let after = log_records::next_record(block, place, 1);
        next = verdict_line(tree, &block[place + 1..after], number, work, text, next);
        place = after;
    }
    next
}

// A line for each episode of a log.
pub fn log_lines(tree: &[u8], log: &[u8], work: &mut [u64], text: &mut [u8]) -> usize
    requires { Given (checking tree.now) × Given (log_sound 1 log.now) × (length log.now ≤ 8192) × (8128 ≤ length work.old) × (53040 ≤ length text.old) }
    ensures { LogLines tree.now log.now text.old text.new result }
{
    let mut number: usize = 1;
    let mut next: usize = 0;
    for block in log.chunks_exact(BLOCK_SIZE) {
        next = block_lines(tree, block, number, work, text, next);
        number += usize::from(block[0]);
    }
    next
}
