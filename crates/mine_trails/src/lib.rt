// What one record's codes add to a graph.
#![tactic(auto)]

ghost use Rattle.std.specs.Prelude.{◌≡◌, true, [], ◌∷◌, ℕ, ◌<◌};
ghost use Rattle.rules.specs.Calls.{code_count};
ghost use Rattle.code_sets.specs.Bits.{has};
ghost use Rattle.graph_rows.specs.Edges.{meant};
ghost use Rattle.mine_places.specs.Places.{codes_of, Events};
ghost use Rattle.mine_views.specs.Sublogs.{Walk, step_by, done, sight};
ghost use Rattle.mine_trails.specs.Growing.{joined, with_pieces, Coded, trail, trailed, adds_nothing, last_after};

use code_sets::CodeSet;
use graph_rows::Graph;
use mine_views::View;

// The graph where the open sub-episode ends, of which `last` is the last code.
fn closed(g: Graph, last: Option<u8>) -> Graph
    requires { Coded last }
    ensures { (kept : ℕ) (w : Walk) → joined (meant result kept) (done w) ≡ trailed (trail g last) kept ([], done w) }
{
    match last {
        Some(end) => g.ended(end),
        None => g,
    }
}

// The graph with what one code adds that is an event or a break.
fn grown(g: Graph, keep: CodeSet, last: Option<u8>, c: u8) -> Graph
    requires { (c < code_count) × Coded last }
    ensures { (kept : ℕ) (w : Walk) → trailed (trail result (last_after (has keep.bits c) c)) kept w ≡ trailed (trail g last) kept (step_by (has keep.bits c) true c w) }
{
    if !keep.has_code(c) {
        return closed(g, last);
    }
    match last {
        Some(before) => g.noted(before, c),
        None => g.started(c),
    }
}

// A code adds nothing to the graph: its start, its pair or the end that it makes is noted already.
fn adds_nothing(g: &Graph, keep: CodeSet, last: Option<u8>, c: u8) -> bool
    requires { (c < code_count) × Coded last }
    ensures { result ≡ adds_nothing g.now (has keep.bits c) last c }
{
    let event = keep.has_code(c);
    match last {
        Some(before) if event => CodeSet {
            bits: g.rows[before as usize],
        }
        .has_code(c),
        Some(end) => g.ends.has_code(end),
        None => !event || g.starts.has_code(c),
    }
}

// The last code after one more, of an open sub-episode: the code where it is an event, none after a break.
fn last_after(keep: CodeSet, c: u8) -> Option<u8>
    requires { c < code_count }
    ensures { result ≡ last_after (has keep.bits c) c }
{
    if keep.has_code(c) { Some(c) } else { None }
}

// The graph with what one record's codes add. Most codes add nothing: then only the last one changes.
pub fn graph_codes(events: &[u8], w: usize, v: View, g: Graph) -> Graph
    requires { Events w events.now }
    ensures { meant result v.keep.bits ≡ with_pieces (sight v) (meant g v.keep.bits) (codes_of w events.now ∷ []) }
{
    let watched = v.keep.union(v.breaks);
    let mut h = g;
    let mut last = None;
    for &c in events.iter().step_by(w) {
        if watched.has_first(c) {
            if !adds_nothing(&h, v.keep, last, c) {
                h = grown(h, v.keep, last, c);
            }
            last = last_after(v.keep, c);
        }
    }
    closed(h, last)
}
