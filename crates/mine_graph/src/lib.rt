// The graph of a view's sublog: one pass over the places of a list, which hands each record's events on as a part of the log.
#![tactic(auto)]

ghost use Rattle.std.specs.Prelude.{◌≡◌, true, ◌&&◌, [], ◌∷◌, ℕ, length};
ghost use Rattle.rules.specs.Calls.{code_count};
ghost use Rattle.code_sets.specs.Bits.{has, listed};
ghost use Rattle.code_sets.specs.declared.CodeSet.{CodeSet};
ghost use Rattle.graph_rows.specs.Edges.{meant};
ghost use Rattle.mine_places.specs.Places.{codes_of, episodes_of, Events, Listed};
ghost use Rattle.mine_views.specs.Sublogs.{sight, sublog, drawn};
ghost use Rattle.mine_trails.specs.Growing.{with_pieces, graph_of};

use code_sets::{Bits, CodeSet};
use graph_rows::Graph;
use mine_views::View;

// Has a graph everything that one record's codes add? Most records add nothing. `first` are the kept codes that are starts, `known` those that may come next
// and add nothing, `open` is the last code of the open sub-episode: an end, should it end here.
fn nothing_new(
    events: &[u8],
    w: usize,
    v: View,
    rows: &[Bits],
    first: CodeSet,
    ends: CodeSet,
) -> bool
    requires { (length rows.now ≡ code_count) × Events w events.now }
    ensures { result ≡ true → (starts : CodeSet) → ((x : ℕ) → has first.bits x ≡ (has starts.bits x && has v.keep.bits x)) → with_pieces (sight v) (meant (graph_of rows.now starts ends) v.keep.bits) (codes_of w events.now ∷ []) ≡ meant (graph_of rows.now starts ends) v.keep.bits }
{
    let keep = v.keep;
    let watched = keep.union(v.breaks);
    let mut known = first;
    let mut open = CodeSet::none();
    for &c in events.iter().step_by(w) {
        if watched.has_first(c) {
            if known.has_code(c) {
                let row = CodeSet {
                    bits: rows[c as usize],
                };
                known = row.meet(keep);
                open = CodeSet::none().with_code(c);
            } else {
                if keep.has_code(c) || !open.minus(ends).is_empty() {
                    return false;
                }
                known = first;
                open = CodeSet::none();
            }
        }
    }
    open.minus(ends).is_empty()
}

// The graph of a view's sublog.
// Log, places and w stay parameters: those of public functions that docs/PROMISES.md names.
pub fn graph_of(log: &[u8], places: &[u8], w: usize, v: View) -> Graph
    requires { Listed w log.now places.now }
    ensures { meant result v.keep.bits ≡ drawn (listed code_count v.keep.bits) (sublog v (episodes_of w log.now places.now)) }
{
    let mut g = Graph::new();
    let mut first = g.starts.meet(v.keep);
    for place in places.chunks_exact(2) {
        let at = mine_places::place_at(place, 0);
        let events = mine_places::events_at(log, at, w);
        if !nothing_new(events, w, v, &g.rows, first, g.ends) {
            g = mine_trails::graph_codes(events, w, v, g);
            first = g.starts.meet(v.keep);
        }
    }
    g
}
