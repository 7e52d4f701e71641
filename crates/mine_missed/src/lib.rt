// Which parts of a cut some sub-episode of a view has no event of: the views of those parts have the empty episode.
#![tactic(auto)]

ghost use Rattle.std.specs.Prelude.{◌≡◌, ◌||◌, ◌&&◌, [], ◌∷◌, ℕ, ◌≤◌, ◌<◌, ltb, length};
ghost use Rattle.rules.specs.Calls.{code_count};
ghost use Rattle.rules.specs.TreeBlock.{op_of};
ghost use Rattle.code_sets.specs.Bits.{has};
ghost use Rattle.mine_places.specs.Places.{codes_of, episodes_of, Events, Listed};
ghost use Rattle.mine_views.specs.Sublogs.{sight, bare_of, part_sight};
ghost use Rattle.mine_missed.specs.Missed.{part_at, missed_by, lacked_by};

use code_sets::{Bits, CodeSet};
use mine_views::View;
use rules::Operator;

// The parts that a sub-episode of these events lacks, besides those missed before.
fn with_lacked(own: CodeSet, sets: &[Bits], missed: Bits) -> Bits
    requires { length sets.now ≤ code_count }
    ensures { (k : ℕ) → has result k ≡ (has missed k || lacked_by sets.now (has own.bits) k) }
{
    if own.is_empty() {
        return missed;
    }
    let mut m = missed;
    for (k, &part) in sets.iter().enumerate() {
        if part & own.bits == 0 {
            m |= 1 << (k as u8);
        }
    }
    m
}

// The parts that a sub-episode of one record's codes lacks, besides those missed before. `seen` may have codes that are no events of the view.
fn missed_codes(events: &[u8], w: usize, v: View, sets: &[Bits], missed: Bits) -> Bits
    requires { (length sets.now ≤ code_count) × Events w events.now }
    ensures { has result ≡ missed_by (sight v) sets.now (has missed) (codes_of w events.now ∷ []) }
{
    let keep = v.keep;
    let breaks = v.breaks;
    let cuts = breaks.minus(keep);
    let mut m = missed;
    let mut seen = CodeSet::none();
    for &c in events.iter().step_by(w) {
        if cuts.has_first(c) {
            m = with_lacked(seen.meet(keep), sets, m);
            seen = CodeSet::none();
        } else {
            seen = seen.with_code(c);
        }
    }
    with_lacked(seen.meet(keep), sets, m)
}

// Every part where the empty episode is there too, and none otherwise.
fn at_first(bare: bool) -> Bits
    ensures { (k : ℕ) → has result k ≡ (bare && ltb k code_count) }
{
    if bare { CodeSet::ALL } else { 0 }
}

// The parts that an episode of the view lacks.
fn missed_of(log: &[u8], places: &[u8], w: usize, v: View, sets: &[Bits]) -> Bits
    requires { Listed w log.now places.now × (length sets.now ≤ code_count) }
    ensures { (k : ℕ) → k < length sets.now → has result k ≡ bare_of (part_at sets.now k) (episodes_of w log.now places.now) (sight v) }
{
    let mut m = at_first(v.bare);
    for place in places.chunks_exact(2) {
        let at = mine_places::place_at(place, 0);
        let events = mine_places::events_at(log, at, w);
        m = missed_codes(events, w, v, sets, m);
    }
    m
}

// The parts under a cut whose views have the empty episode: a choice and a loop make none.
// Log, places and w stay parameters: those of public functions that docs/PROMISES.md names.
pub fn missed_parts(
    log: &[u8],
    places: &[u8],
    w: usize,
    v: View,
    operator: Operator,
    sets: &[Bits],
) -> Bits
    requires { Listed w log.now places.now × (length sets.now ≤ code_count) }
    ensures { (k : ℕ) → k < length sets.now → has result k ≡ (part_sight (op_of operator) (part_at sets.now k) (episodes_of w log.now places.now) (sight v)).bare }
{
    // By the cases that the definition `part_sight` goes by.
    match operator {
        Operator::Choice | Operator::Loop => 0,
        Operator::Sequence | Operator::Parallel => missed_of(log, places, w, v, sets),
    }
}
