// An episode without its heartbeats, copied: judging goes by the events alone.
#![tactic(auto)]

ghost use Rattle.std.specs.Prelude.{◌≤◌, length};
ghost use Rattle.judge_events.specs.Copies.{Copies};

use rules::HEARTBEAT;

// Copies the events of an episode to the front of lent bytes, and answers how many there are.
// A loop that writes: no library method copies into lent bytes what passes a test.
pub fn copy_events(episode: &[u8], out: &mut [u8]) -> usize
    requires { length episode.now ≤ length out.old }
    ensures { Copies episode.now out.old result out.new }
{
    let mut n: usize = 0;
    for &c in episode {
        if c != HEARTBEAT {
            out[n] = c;
            n += 1;
        }
    }
    n
}
