// The lines of a bench sheet: words with one blank between two, of which a number or the name of a kind of node is a value.
#![tactic(auto)]

ghost use Rattle.std.specs.Prelude.{◌≡◌};
ghost use Rattle.std.proofs.lemmas.List.Edits.{sets};
ghost use Rattle.bench_sheet.specs.Words.{kind_named, grown, number_of, values_of, from_value, listed};

use rules::{ACTIVITY, CHOICE, LOOP, PARALLEL, SEQUENCE, SILENT};

// The kind of node whose name begins with a letter: tau, act, xor, seq, par, loop. 0 for any other letter, as `kind_named` says.
fn kind(letter: u8) -> u8
    ensures { result ≡ kind_named letter }
{
    match letter {
        b't' => SILENT,
        b'a' => ACTIVITY,
        b'x' => CHOICE,
        b's' => SEQUENCE,
        b'p' => PARALLEL,
        b'l' => LOOP,
        _ => 0,
    }
}

// What a word says with one byte more: a digit, of a number up to a million, or the letter of a kind.
#[tactic(auto, unfolding(crate::specs::Words::grown))]
fn grow(n: usize, b: u8) -> usize
    ensures { result ≡ grown n b }
{
    match b {
        b'0'..=b'9' if n <= 100000 => n * 10 + usize::from(b - b'0'),
        _ if n == 0 => usize::from(kind(b)),
        _ => n,
    }
}

// What word k of a line says; word 0 is the first.
#[tactic(auto, unfolding(crate::specs::Words::number_from))]
pub fn number(line: &[u8], k: usize) -> usize
    ensures { result ≡ number_of line.now k }
{
    let mut n: usize = 0;
    let mut left = k;
    for &b in line {
        if b == b' ' {
            if left == 0 {
                return n;
            }
            left -= 1;
        } else if left == 0 {
            n = grow(n, b);
        }
    }
    n
}

// The number of words after the first.
pub fn values(line: &[u8]) -> usize
    ensures { result ≡ values_of line.now }
{
    line.iter().filter(|b| **b == b' ').count()
}

// A line from value k on, which is its word k + 1; nothing where it has fewer.
#[tactic(auto, unfolding(crate::specs::Words::from_value))]
fn from_value(line: &[u8], k: usize) -> &[u8]
    ensures { result.now ≡ from_value line.now k }
{
    let mut before = k;
    for i in 0..line.len() {
        if line[i] == b' ' {
            if before == 0 {
                return &line[i + 1..];
            }
            before -= 1;
        }
    }
    &[]
}

// Puts the values of a line as bytes from a place on, as far as there is room; the first ones are skipped.
#[tactic(auto, using(crate::proofs::WordLaws::sets_out, crate::proofs::WordLaws::lay_end, crate::proofs::WordLaws::lay_turn, crate::proofs::WordLaws::value_next))]
pub fn lay(line: &[u8], skip: usize, s: &mut [u8], place: usize)
    ensures { s.new ≡ sets s.old place (listed line.now skip) }
{
    // The place by hand: it ends with the room, as k ends with the values. Each word is read where the one before it ended.
    let mut at = place;
    let mut rest = from_value(line, skip);
    for k in skip..values(line) {
        if s.len() <= at {
            return;
        }
        s[at] = (number(rest, 0) % 256) as u8;
        rest = from_value(rest, 0);
        at += 1;
    }
}
