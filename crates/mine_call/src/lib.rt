// Mining: from a log to the block of its tree.
#![tactic(auto)]

ghost use Rattle.std.specs.Prelude.{◌≡◌, ◌≤◌, length};
ghost use Rattle.rules.specs.Words.{zeros, each};
ghost use Rattle.rules.specs.Heartbeats.{without_heartbeats};
ghost use Rattle.rules.specs.Trees.{size};
ghost use Rattle.rules.specs.Mining.{mined};
ghost use Rattle.rules.specs.Refusals.{Given};
ghost use Rattle.rules.specs.TreeBlock.{tree_block};
ghost use Rattle.rules.specs.Calls.{log_sound, tree_of, MineSays, code_count};
ghost use Rattle.mine_places.specs.Places.{episodes_of, Listed};
ghost use Rattle.mine_gather.specs.Gathering.{Lists};
ghost use Rattle.mine_views.specs.Sublogs.{sight, root_sight};
ghost use Rattle.mine_root.specs.Widened.{quietly};

use mine_views::View;
use rules::{Answer, HEARTBEAT, MINE_WORK, Reason, Refusal, TREE_SIZE};

// Writes the block of the tree of listed episodes, of which `met` is the root's view, and answers the number of nodes.
fn mine_tree(log: &[u8], places: &[u8], w: usize, tree: &mut [u8], met: View) -> usize
    requires { (length tree.old ≡ 512) × Listed w log.now places.now × (quietly (sight met) ≡ root_sight code_count (each without_heartbeats (episodes_of w log.now places.now))) }
    ensures { (result ≡ size (mined code_count (each without_heartbeats (episodes_of w log.now places.now)))) × (tree.new ≡ tree_block (mined code_count (each without_heartbeats (episodes_of w log.now places.now)))) }
{
    tree.fill(0);
    let v = mine_root::quiet(met);
    let nodes = mine_nodes::mine_node(log, places, w, tree, v, 0);
    block_seal::seal(tree);
    nodes
}

// Lists the distinct episodes of a sound log once more, by their events alone, where the list of n places has heartbeats.
fn list_again(log: &[u8], work: &mut [u8], n: usize, beats: bool) -> usize
    requires { (length log.now ≤ 8192) × (length work.old ≡ 16384) × Given (log_sound 1 log.now) × Lists 1 log.now n work.old }
    ensures { (length work.new ≡ 16384) × Lists 1 log.now result work.new }
{
    if beats {
        mine_gather::gather(log, work, 1, true)
    } else {
        n
    }
}

// Writes the block of a sound log's tree, and answers the number of nodes: each distinct episode is listed, and the list is walked. The work is zero afterwards.
fn mine_log(log: &[u8], tree: &mut [u8], work: &mut [u8]) -> usize
    requires { (length tree.old ≡ 512) × (length work.old ≡ 16384) × (length log.now ≤ 8192) × Given (log_sound 1 log.now) }
    ensures { (result ≡ size (tree_of 1 log.now)) × (tree.new ≡ tree_block (tree_of 1 log.now)) × (work.new ≡ zeros 16384) }
{
    let stored = mine_gather::gather(log, work, 1, false);
    let met = mine_root::root_of(log, &work[..2 * stored], 1);
    let n = list_again(log, work, stored, met.keep.has_code(HEARTBEAT));
    let nodes = mine_tree(log, &work[..2 * n], 1, tree, met);
    work.fill(0);
    nodes
}

// Mining: writes the tree of a log as the first 512 bytes of a block and answers its number of nodes, or refuses and writes nothing.
pub fn mine(log: &[u8], out: &mut [u8], work: &mut [u8]) -> Answer
    ensures { MineSays 1 log.now out.old work.old result out.new work.new }
{
    if !log_whole::sized(log) {
        return Err(Refusal {
            reason: Reason::LogLength,
            place: 0,
        });
    }
    if out.len() < TREE_SIZE {
        return Err(Refusal {
            reason: Reason::OutLength,
            place: 0,
        });
    }
    if work.len() < MINE_WORK {
        return Err(Refusal {
            reason: Reason::WorkLength,
            place: 0,
        });
    }
    log_whole::sound_log(log, 1)?;
    let nodes = mine_log(log, &mut out[..TREE_SIZE], &mut work[..MINE_WORK]);
    Ok(nodes)
}
