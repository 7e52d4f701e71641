// The places of a log's distinct episodes, gathered in lent work: the list at the front, behind it a table of hints that tell which listed place to compare with.
// A hint may be wrong: what it leads to is compared. So nothing depends on the number that finds a slot, and an episode listed twice changes no set.
#![tactic(auto)]

ghost use Rattle.std.specs.Prelude.{◌≡◌, true, [], ◌∷◌, ◌+◌, ◌≤◌, ◌<◌, length, get_or};
ghost use Rattle.std.proofs.lemmas.List.Edits.{sets};
ghost use Rattle.rules.specs.Words.{part};
ghost use Rattle.rules.specs.Heartbeats.{without_heartbeats};
ghost use Rattle.rules.specs.Refusals.{Given};
ghost use Rattle.rules.specs.LogBlock.{records_at, block_episodes};
ghost use Rattle.rules.specs.Calls.{top_code, log_sound};
ghost use Rattle.mine_places.specs.Places.{codes_of, episode_of, Events, Recorded};
ghost use Rattle.mine_gather.specs.Gathering.{listed_by, as_bytes, Listing, Lists, Finds, Gathered};

use rules::{BLOCK_SIZE, HEARTBEAT};

// Log, work, n and w stay parameters: of a struct that is lent each contract would have to say besides that the log and w stay as they are.
// Behind the list, of at most 4,080 places of two bytes: a hint of two bytes a slot. Behind the table there is room for a byte for each listed place.
const HINTS: usize = 8192;

const HINTS_END: usize = 12288;

const SLOTS: usize = 2048;

// No more slots are looked at than this, however the codes were chosen.
const TRIES: usize = 32;

// An episode is listed already, or may be hinted at in a free slot, or all slots that were looked at hint at others.
#[derive(Clone, Copy, PartialEq, Eq, Debug)]
pub enum Found {
    Known,
    Room(usize),
    Crowded,
}

// Events and w stay two parameters: two records that are compared have one w, and two structs would have to be told so.
// The slot to look at first: a number made of the codes and their order, of those of events alone where `beats` tells so.
fn slot_of(events: &[u8], w: usize, beats: bool) -> usize
    requires { Events w events.now }
    ensures { result < 2048 }
{
    let mut number: u32 = 1;
    for &c in events.iter().step_by(w) {
        if !(beats && c == HEARTBEAT) {
            number = (number * 101 + (c as u32)) % 65536;
        }
    }
    (number as usize) % SLOTS
}

// Have two records the same codes? Where the first is, every code is looked at, which takes fewer instructions than to stop at the first that differs.
fn same_codes(a: &[u8], b: &[u8], w: usize) -> bool
    requires { Events w a.now × Events w b.now }
    ensures { result ≡ true → codes_of w a.now ≡ codes_of w b.now }
{
    if a.len() != b.len() {
        return false;
    }
    if a.is_empty() {
        return true;
    }
    if a[0] != b[0] {
        return false;
    }
    let mut same = true;
    for i in 0..a.len().div_ceil(w) {
        same &= a[i * w] == b[i * w];
    }
    same
}

// Have two records the same events?
fn same_without(a: &[u8], b: &[u8], w: usize) -> bool
    requires { Events w a.now × Events w b.now }
    ensures { result ≡ true → without_heartbeats (codes_of w a.now) ≡ without_heartbeats (codes_of w b.now) }
{
    let mine = a.iter().step_by(w).filter(|c| **c != HEARTBEAT);
    let other = b.iter().step_by(w).filter(|c| **c != HEARTBEAT);
    mine.eq(other)
}

// A flag and no closure: the compiler makes a walk for each of its values, and each function up to `gather` would be generic over the closure.
fn same_events(a: &[u8], b: &[u8], w: usize, beats: bool) -> bool
    requires { Events w a.now × Events w b.now }
    ensures { result ≡ true → without_heartbeats (codes_of w a.now) ≡ without_heartbeats (codes_of w b.now) }
{
    if beats {
        same_without(a, b, w)
    } else {
        same_codes(a, b, w)
    }
}

// Looks for an episode among the n that are listed, from its slot on.
fn look_up(log: &[u8], work: &[u8], n: usize, events: &[u8], w: usize, beats: bool) -> Found
    requires { (n ≤ 4080) × Events w events.now × Listing w log.now n work.now }
    ensures { Finds result (listed_by w log.now n work.now) (codes_of w events.now) }
{
    let first = slot_of(events, w, beats);
    for i in 0..TRIES {
        let slot = (first + i) % SLOTS;
        let k = mine_places::place_at(work, HINTS + 2 * slot);
        if k == 0 || n < k {
            return Found::Room(slot);
        }
        let at = mine_places::place_at(work, 2 * (k - 1));
        if same_events(mine_places::events_at(log, at, w), events, w, beats) {
            return Found::Known;
        }
    }
    Found::Crowded
}

// Writes a number as two bytes, the lower first.
fn put(work: &mut [u8], i: usize, n: usize)
    requires { (i + 1 < length work.old) × (n < 65536) }
    ensures { work.new ≡ sets work.old i (as_bytes n) }
{
    work[i..i + 2].copy_from_slice(&(n as u16).to_le_bytes());
}

// Lists the place of a record unless its episode is known, and answers how many places are listed then.
fn list_place(log: &[u8], work: &mut [u8], n: usize, at: usize, w: usize, beats: bool) -> usize
    requires { (n < 4080) × (at < 65536) × Recorded w log.now at × Listing w log.now n work.old }
    ensures { Gathered w log.now (episode_of w log.now at ∷ []) [] n work.old result work.new }
{
    let found = look_up(log, work, n, mine_places::events_at(log, at, w), w, beats);
    match found {
        Found::Known => n,
        Found::Room(slot) => {
            put(work, 2 * n, at);
            put(work, HINTS + 2 * slot, n + 1);
            n + 1
        }
        Found::Crowded => {
            put(work, 2 * n, at);
            n + 1
        }
    }
}

// Lists the places of the records of the block from a base on.
fn gather_block(log: &[u8], work: &mut [u8], n: usize, base: usize, w: usize, beats: bool) -> usize
    requires { (n + 255 ≤ 4080) × (base + 512 ≤ length log.now) × (length log.now ≤ 8192) × Given (records_at w top_code (get_or (part log.now base 512) 0 0) (part log.now base 512) 1) × Listing w log.now n work.old }
    ensures { (result ≤ n + 255) × Gathered w log.now (block_episodes w (part log.now base 512)) [] n work.old result work.new }
{
    let end = base + BLOCK_SIZE;
    let block = &log[base..end];
    let mut m = n;
    let mut at: usize = 1;
    // A place by hand: the step is the record's own length.
    for _ in 0..block[0] {
        m = list_place(log, work, m, base + at, w, beats);
        at = log_records::next_record(block, at, w);
    }
    m
}

// No slot hints at anything: what the work held before costs no comparison.
fn clear_hints(work: &mut [u8])
    requires { 16384 ≤ length work.old }
    ensures { length work.new ≡ length work.old }
{
    work[HINTS..HINTS_END].fill(0);
}

// Lists the places of a sound log's distinct episodes, and answers how many. `beats` tells to compare events alone; otherwise records are compared as they are stored, which
// takes less, and lists an episode once for each way that heartbeats stand in it. Each of its two calls is compiled with its own `beats`: one function for both took up to a third more instructions.
#[inline(always)]
pub fn gather(log: &[u8], work: &mut [u8], w: usize, beats: bool) -> usize
    requires { (1 ≤ w) × (w ≤ 3) × (length log.now ≤ 8192) × (16384 ≤ length work.old) × Given (log_sound w log.now) }
    ensures { (length work.new ≡ length work.old) × Lists w log.now result work.new }
{
    clear_hints(work);
    let mut n: usize = 0;
    // Blocks by number: a listed place counts from the start of the log.
    for i in 0..log.len() / BLOCK_SIZE {
        n = gather_block(log, work, n, BLOCK_SIZE * i, w, beats);
    }
    n
}
