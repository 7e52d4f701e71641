// Rows of places: row i of a table has bit j set where what stands between the places i and j of an episode is right.
#![tactic(auto)]

ghost use Rattle.std.specs.Prelude.{◌≡◌, ◌&&◌, ℕ, ◌≤◌, ◌<◌, length};
ghost use Rattle.rules.specs.Calls.{entry_count};
ghost use Rattle.code_sets.specs.Bits.{has};
ghost use Rattle.judge_rows.specs.Rows.{at, between, clear, single, kept, Stored};

use code_sets::CodeSet;
use rules::PLACE_COUNT;

// Takes from the rows the places that have a blocked event on the way.
fn cut_down(rows: &mut [u64], episode: &[u8], blocked: CodeSet)
    requires { (length rows.old ≡ 64) × (length episode.now ≤ 63) }
    ensures { (i j : ℕ) → at rows.new i j ≡ (at rows.old i j && between (clear (has blocked.bits)) episode.now i j) }
{
    let n = episode.len();
    let mut run: u64 = 1 << n;
    rows[n + 1..].fill(0);
    rows[n] &= run;
    for i in (0..n).rev() {
        if blocked.has(episode[i]) {
            run = 0;
        }
        run |= 1 << i;
        rows[i] &= run;
    }
}

// Row i has the places j from i on with no blocked event between i and j.
pub fn clear_rows(episode: &[u8], blocked: CodeSet) -> [u64; PLACE_COUNT]
    requires { length episode.now ≤ 63 }
    ensures { (i j : ℕ) → at result i j ≡ between (clear (has blocked.bits)) episode.now i j }
{
    let mut rows = [u64::MAX; PLACE_COUNT];
    cut_down(&mut rows, episode, blocked);
    rows
}

// Row i has the places j with exactly one event of the code between i and j. A walk of its own: its rows are the run before the next such event, and not the run.
pub fn leaf_rows(episode: &[u8], code: u8) -> [u64; PLACE_COUNT]
    requires { length episode.now ≤ 63 }
    ensures { (i j : ℕ) → at result i j ≡ between (single code) episode.now i j }
{
    let n = episode.len();
    let mut rows = [0u64; PLACE_COUNT];
    let mut run: u64 = 1 << n;
    let mut one: u64 = 0;
    for i in (0..n).rev() {
        if episode[i] == code {
            one = run;
            run = 0;
        }
        run |= 1 << i;
        rows[i] = one;
    }
    rows
}

// The rows of entry v, without the places that have a blocked event on the way.
pub fn rows_of(work: &[u64], v: usize, episode: &[u8], blocked: CodeSet) -> [u64; PLACE_COUNT]
    requires { (v < entry_count) × (8128 ≤ length work.now) × (length episode.now ≤ 63) }
    ensures { (i j : ℕ) → at result i j ≡ (kept work.now v i j && between (clear (has blocked.bits)) episode.now i j) }
{
    let first = v * PLACE_COUNT;
    let mut rows = [0u64; PLACE_COUNT];
    rows.copy_from_slice(&work[first..first + PLACE_COUNT]);
    cut_down(&mut rows, episode, blocked);
    rows
}

// The rows go to the place of entry v.
pub fn store_rows(work: &mut [u64], v: usize, rows: &[u64])
    requires { (v < entry_count) × (8128 ≤ length work.old) × (length rows.now ≡ 64) }
    ensures { Stored work.old v rows.now 64 work.new }
{
    let first = v * PLACE_COUNT;
    work[first..first + PLACE_COUNT].copy_from_slice(rows);
}
