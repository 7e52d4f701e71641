// Judging an episode against a tree: the refusals in their order, and the verdict.
#![tactic(auto)]

ghost use Rattle.std.specs.Prelude.{◌≡◌, List, ℕ, ◌≤◌, length};
ghost use Rattle.rules.specs.Heartbeats.{without_heartbeats};
ghost use Rattle.rules.specs.Calls.{cleared, judging, JudgeSays};
ghost use Rattle.judge_fits.specs.Fits.{Nodes, FitSays};

use rules::{Answer, EVENT_COUNT, JUDGE_WORK, Reason, Refusal, TREE_SIZE, Verdict};

// The refusals in their order: TreeBlock for the length, WorkLength, TreeBlock for the check, BadTree, EpisodeLength, EpisodeCode. `room` is the number of work numbers.
#[tactic(auto, unfolding(rules::specs::Calls::judging))]
fn accept(tree: &[u8], episode: &[u8], room: usize) -> Answer
    ensures { (work : List ℕ) → length work ≡ room → result ≡ judging tree.now episode.now work }
{
    if tree.len() != TREE_SIZE {
        return Err(Refusal {
            reason: Reason::TreeBlock,
            place: 0,
        });
    }
    if room < JUDGE_WORK {
        return Err(Refusal {
            reason: Reason::WorkLength,
            place: 0,
        });
    }
    if !block_seal::check_right(tree) {
        return Err(Refusal {
            reason: Reason::TreeBlock,
            place: 0,
        });
    }
    tree_check::formed(tree)?;
    log_events::lent_episode(episode, 1)
}

// Whether the tree of n entries has an episode without its heartbeats.
fn fits(tree: &[u8], n: usize, episode: &[u8], work: &mut [u64]) -> bool
    requires { (length episode.now ≤ 63) × Nodes tree.now (without_heartbeats episode.now) work.old n }
    ensures { FitSays tree.now n (without_heartbeats episode.now) result × (work.new ≡ cleared 8128 work.old) }
{
    let mut events = [0u8; EVENT_COUNT];
    let count = judge_events::copy_events(episode, &mut events);
    judge_fits::fits(tree, n, &events[..count], work)
}

// Judging: whether the tree has the episode, its heartbeats left out.
pub fn judge(tree: &[u8], episode: &[u8], work: &mut [u64]) -> Result<Verdict, Refusal>
    ensures { JudgeSays tree.now episode.now work.old result work.new }
{
    accept(tree, episode, work.len())?;
    let n = judge_subtrees::size_at(tree, 0);
    if fits(tree, n, episode, work) {
        return Ok(Verdict::Fits);
    }
    Ok(Verdict::Misfit)
}
