// Runs the bench sheet on standard input, whose top says how its lines are read: prints each row as ok or wrong, and how many are.
#![tactic(auto)]

ghost use Rattle.std.specs.Prelude.{◌≤◌};

use rules::{Answer, BLOCK_SIZE, JUDGE_WORK, MINE_WORK, Refusal, TREE_SIZE, Verdict};

// The input and the lent episode with their sizes; bytes of the block to write, bytes and numbers of work that are lent. Then how many
// rows were ok and wrong.
#[derive(Drop)]
struct Bench {
    input: [u8; INPUT_SIZE],
    size: usize,
    episode: [u8; 64],
    events: usize,
    block: usize,
    work: usize,
    numbers: usize,
    ok: u64,
    wrong: u64,
}

// The bytes of input that there is room for.
const INPUT_SIZE: usize = 9216;

// The first n bytes, or all.
fn front(s: &[u8], n: usize) -> &[u8] {
    &s[..n.min(s.len())]
}

// The bytes from place n on, or none.
fn rest(s: &[u8], n: usize) -> &[u8] {
    &s[n.min(s.len())..]
}

// The first three letters of a line, which tell its first word.
fn word(line: &[u8]) -> &[u8] {
    front(line, 3)
}

// Whether all of a part are x. Each is looked at, many at a time: a search that stops at the first other one goes one by one.
fn every<T: Copy + PartialEq>(s: &[T], x: T) -> bool {
    s.iter().fold(true, |so_far, &y| so_far & (y == x))
}

// Whether the first n are all zero, and all others x.
fn cleared<T: Copy + PartialEq>(s: &[T], n: usize, zero: T, x: T) -> bool {
    n <= s.len() && every(&s[..n], zero) && every(&s[n..], x)
}

// An answer as a row says it from word k on: `gives N` or `refused N at P`.
fn is(r: Answer, row: &[u8], k: usize) -> bool
    requires { k ≤ 3 }
{
    let said = bench_sheet::number(row, k);
    let last = bench_sheet::values(row);
    match r {
        Ok(n) => said == n && last == k,
        Err(Refusal { reason, place }) => {
            last == k + 2
                && said == usize::from(u8::from(reason))
                && bench_sheet::number(row, last) == place
        }
    }
}

// Whether a part is the bytes that a row lists after its second value.
fn listed(row: &[u8], part: &[u8]) -> bool {
    let mut want = [0u8; 64];
    bench_sheet::lay(row, 2, &mut want, 0);
    bench_sheet::values(row) == part.len() + 2 && front(&want, part.len()) == part
}

// Whether bytes begin with those that a row lists.
fn held(row: &[u8], bytes: &[u8]) -> bool {
    let n = bench_sheet::values(row);
    2 <= n && listed(row, front(bytes, n - 2))
}

// A row that only looks at the input.
fn looked(row: &[u8], input: &[u8]) -> bool {
    let at = bench_sheet::number(row, 1);
    match word(row) {
        b"log" => is(log_whole::read_log(input), row, 2),
        b"che" => is(tree_check::check(input), row, 2),
        b"rea" => is(log_records::read(input, at), row, 3),
        b"cod" => listed(row, log_records::codes(input, at)),
        b"byt" => held(row, rest(input, at)),
        _ => false,
    }
}

// An episode added to the input; gives 0 where the input is larger than there is room for.
fn add_to(input: &mut [u8], size: usize, episode: &[u8]) -> Answer {
    if size <= input.len() {
        return log_adding::add(&mut input[..size], episode);
    }
    Ok(0)
}

// Writes the check of the block that starts at a base.
fn seal(input: &mut [u8], base: usize) {
    if base <= input.len() && BLOCK_SIZE <= input.len() - base {
        block_seal::seal(&mut input[base..base + BLOCK_SIZE]);
    }
}

// The block of the tree that a row lists is written, and no byte after it; the work is zero, and none of it after its 16,384 bytes.
fn written(nodes: usize, row: &[u8], out: &[u8], work: &[u8]) -> bool {
    let mut tree = [0u8; TREE_SIZE];
    bench_sheet::lay(row, 1, &mut tree, 0);
    seal(&mut tree, 0);
    bench_sheet::values(row) / 4 == nodes
        && front(out, TREE_SIZE) == tree.as_slice()
        && every(rest(out, TREE_SIZE), 7)
        && cleared(work, MINE_WORK, 0, 9)
}

// Mining into a block of sevens with work of nines; a refusal writes nothing.
fn mined(row: &[u8], log: &[u8], out: &mut [u8], work: &mut [u8]) -> bool {
    match mine_call::mine(log, out, work) {
        Ok(nodes) => written(nodes, row, out, work),
        r => is(r, row, 2) && every(out, 7) && every(work, 9),
    }
}

fn mine(row: &[u8], log: &[u8], block: usize, size: usize) -> bool {
    let mut out = [7u8; 520];
    let mut work = [9u8; 16392];
    block <= 520 && size <= 16392 && mined(row, log, &mut out[..block], &mut work[..size])
}

fn row_of(verdict: Verdict) -> &'static [u8] {
    match verdict {
        Verdict::Fits => b"judge fits",
        Verdict::Misfit => b"judge misfit",
    }
}

// Judging with work of sevens: its first 8,128 numbers are zero after a verdict, and all are as found after a refusal.
fn judged(row: &[u8], tree: &[u8], episode: &[u8], work: &mut [u64]) -> bool {
    match judge_call::judge(tree, episode, work) {
        Ok(verdict) => row == row_of(verdict) && cleared(work, JUDGE_WORK, 0, 7),
        Err(refusal) => is(Err(refusal), row, 2) && every(work, 7),
    }
}

fn judge(row: &[u8], tree: &[u8], episode: &[u8], numbers: usize) -> bool {
    let mut work = [7u64; 8130];
    numbers <= 8130 && judged(row, tree, episode, &mut work[..numbers])
}

// A line feed is said as a slash.
fn said(b: u8) -> u8 {
    if b == b'\n' { b'/' } else { b }
}

// Whether a text is what a row says.
fn says(row: &[u8], text: &[u8]) -> bool {
    row.len() == text.len() && row.iter().zip(text).all(|(&r, &t)| r == said(t))
}

// `prints mine TEXT`, `prints judge TEXT`, each with the room that its program has: much more has to be cleared for verdicts.
fn prints(row: &[u8], input: &[u8]) -> bool {
    match word(rest(row, 7)) {
        b"min" => {
            let mut text = [0u8; 2169];
            let n = text_mined::mined_text(input, &mut text);
            says(rest(row, 12), front(&text, n))
        }
        _ => {
            let mut text = [0u8; 53040];
            let n = text_judged::judged_text(input, &mut text);
            says(rest(row, 13), front(&text, n))
        }
    }
}

// A line of the sheet with what came of it.
fn told(what: &[u8], line: &[u8]) {
    io::write_all(1, what);
    io::write_all(1, line);
    io::write_all(1, b"\n");
}

// The call of a row `NAME: CALL`; nothing of a line with no colon.
fn call_of(line: &[u8]) -> &[u8] {
    let colon = line.iter().position(|&b| b == b':').unwrap_or(line.len());
    rest(rest(line, colon), 2)
}

impl Bench {
    // The lent episode added to the input; a refusal writes nothing.
    fn added(&mut self, row: &[u8]) -> bool {
        let before = self.input;
        let r = add_to(
            &mut self.input,
            self.size,
            front(&self.episode, self.events),
        );
        (r.is_ok() || self.input == before) && is(r, row, 2)
    }

    // Whether a row comes out as it says.
    fn tried(&mut self, row: &[u8]) -> bool {
        let input = front(&self.input, self.size);
        match word(row) {
            b"add" => self.added(row),
            b"pri" => prints(row, input),
            b"min" => mine(row, input, self.block, self.work),
            b"jud" => judge(row, input, front(&self.episode, self.events), self.numbers),
            _ => looked(row, input),
        }
    }

    // Runs the call of a row.
    fn row(&mut self, line: &[u8], call: &[u8]) {
        if self.tried(call) {
            told(b"ok ", line);
            self.ok = self.ok.saturating_add(1);
        } else {
            told(b"wrong ", line);
            self.wrong = self.wrong.saturating_add(1);
        }
    }

    // The episode of the line added to the input.
    fn record(&mut self, line: &[u8]) {
        let mut codes = [0u8; 64];
        bench_sheet::lay(line, 0, &mut codes, 0);
        let _ = add_to(
            &mut self.input,
            self.size,
            front(&codes, bench_sheet::values(line)),
        );
    }

    // `new N`, `put AT BYTES`, `seal AT`, `record CODES`, `episode CODES`, `events N CODE`, `lend BLOCK WORK NUMBERS`.
    fn set_up(&mut self, line: &[u8]) {
        let n = bench_sheet::number(line, 1);
        match word(line) {
            b"new" => {
                self.input.fill(0);
                self.size = n;
            }
            b"put" => bench_sheet::lay(line, 1, &mut self.input, n),
            b"sea" => seal(&mut self.input, n),
            b"rec" => self.record(line),
            b"epi" => {
                bench_sheet::lay(line, 0, &mut self.episode, 0);
                self.events = bench_sheet::values(line);
            }
            b"eve" => {
                self.episode
                    .fill((bench_sheet::number(line, 2) % 256) as u8);
                self.events = n;
            }
            b"len" => {
                self.block = n;
                self.work = bench_sheet::number(line, 2);
                self.numbers = bench_sheet::number(line, 3);
            }
            _ => {
                told(b"not understood: ", line);
                self.wrong = self.wrong.saturating_add(1);
            }
        }
    }

    // A line is empty, a remark, a row, or sets something up.
    fn line(&mut self, line: &[u8]) {
        let call = call_of(line);
        match line {
            [] | [b'#', ..] => {}
            _ if call.is_empty() => self.set_up(line),
            _ => self.row(line, call),
        }
    }
}

fn main() {
    let mut text = [0u8; 32768];
    let n = io::read_full(0, &mut text);
    let mut bench = Bench {
        input: [0u8; INPUT_SIZE],
        size: 0,
        episode: [0u8; 64],
        events: 0,
        block: 520,
        work: 16392,
        numbers: 8130,
        ok: 0,
        wrong: 0,
    };
    for line in text[..n].split(|&b| b == b'\n') {
        bench.line(line);
    }
    io::print_decimal(1, bench.ok);
    io::write_all(1, b" rows ok, ");
    io::print_decimal(1, bench.wrong);
    io::write_all(1, b" wrong\n");
}
