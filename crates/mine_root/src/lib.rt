// The view of the whole log: the codes that occur, and whether the empty episode does.
#![tactic(auto)]

ghost use Rattle.std.specs.Prelude.{◌≡◌, not, ◌||◌, ◌&&◌, [], ◌∷◌, ℕ, eqb, ltb};
ghost use Rattle.rules.specs.Words.{each, mem};
ghost use Rattle.rules.specs.Heartbeats.{heartbeat, without_heartbeats};
ghost use Rattle.rules.specs.Mining.{is_empty};
ghost use Rattle.rules.specs.Calls.{code_count};
ghost use Rattle.code_sets.specs.Bits.{has};
ghost use Rattle.mine_places.specs.Places.{codes_of, episodes_of, Events, Listed};
ghost use Rattle.mine_views.specs.Sublogs.{sight, root_sight};
ghost use Rattle.mine_root.specs.Widened.{quietly, widened};

use code_sets::CodeSet;
use mine_views::View;
use rules::HEARTBEAT;

// A set with one record's codes besides its own. Where every code of an event has been met there is nothing to look for; so whether it has the heartbeat is not told.
fn met_codes(events: &[u8], w: usize, keep: CodeSet) -> CodeSet
    requires { Events w events.now }
    ensures { (i : ℕ) → (has result.bits i && not (eqb i heartbeat)) ≡ ((has keep.bits i && not (eqb i heartbeat)) || (ltb i code_count && mem i (without_heartbeats (codes_of w events.now)))) }
{
    let met = keep.with_code(HEARTBEAT);
    if met == CodeSet::FULL {
        return keep;
    }
    let mut k = keep;
    for &c in events.iter().step_by(w) {
        k = k.with_code(c);
    }
    k
}

// Has a record no events, though it may have heartbeats?
fn eventless(events: &[u8], w: usize) -> bool
    requires { Events w events.now }
    ensures { result ≡ is_empty (without_heartbeats (codes_of w events.now)) }
{
    events.iter().step_by(w).all(|c| *c == HEARTBEAT)
}

// The root's view with one more episode.
fn root_codes(events: &[u8], w: usize, v: View) -> View
    requires { Events w events.now }
    ensures { quietly (sight result) ≡ widened (quietly (sight v)) (codes_of w events.now ∷ []) }
{
    View {
        keep: met_codes(events, w, v.keep),
        bare: v.bare || eventless(events, w),
        ..v
    }
}

// The view of the whole log, of which a list has the places, but for the heartbeat: where it keeps that, a listed record has one.
// Log, places and w stay parameters: those of public functions that docs/PROMISES.md names.
pub fn root_of(log: &[u8], places: &[u8], w: usize) -> View
    requires { Listed w log.now places.now }
    ensures { quietly (sight result) ≡ root_sight code_count (each without_heartbeats (episodes_of w log.now places.now)) }
{
    let mut v = View {
        keep: CodeSet::none(),
        breaks: CodeSet::none(),
        bare: false,
    };
    // Two bytes at a time here, and in the other passes over a list: an iterator of their own over the records took up to 1.36 times the instructions.
    for place in places.chunks_exact(2) {
        let at = mine_places::place_at(place, 0);
        let events = mine_places::events_at(log, at, w);
        v = root_codes(events, w, v);
    }
    v
}

// A view that does not keep the heartbeat.
pub fn quiet(v: View) -> View
    ensures { sight result ≡ quietly (sight v) }
{
    View {
        keep: v.keep.minus(CodeSet::one(HEARTBEAT)),
        ..v
    }
}
