// The components of a relation between codes.
#![tactic(auto)]

ghost use Rattle.std.specs.Prelude.{◌≡◌, [], ℕ, ◌+◌, ◌^◌, ◌≤◌, ◌<◌};
ghost use Rattle.rules.specs.Calls.{code_count};
ghost use Rattle.code_sets.specs.Bits.{has};
ghost use Rattle.cut_parts.specs.Sets.{sets_of};
ghost use Rattle.cut_components.specs.Joined.{join_on, bonded, Components};

use code_sets::{Bits, CodeSet};
use cut_parts::Parts;
use rules::{CODE_COUNT, NO_CODE};

// What joins two codes, by the edges between them: an edge either way, both edges or none, or not both. Three cases and no closure, as the definition goes by them.
#[derive(Clone, Copy, Debug, PartialEq, Eq)]
pub enum Bond {
    Either,
    Alike,
    NotBoth,
}

// The codes that a code is joined to, by its edges out and in.
fn bonds(bond: Bond, out: Bits, into: Bits) -> Bits
    ensures { (b : ℕ) → b < code_count → has result b ≡ bonded bond (has out b) (has into b) }
{
    match bond {
        Bond::Either => out | into,
        Bond::Alike => !(out ^ into),
        Bond::NotBoth => !(out & into),
    }
}

// A code put to parts: those that its row meets become one with it, before the others.
fn joined(parts: Parts, row: Bits, code: u8) -> Parts
    requires { (parts.n < code_count) × (code < code_count) }
    ensures { (result.n ≤ parts.n + 1) × (sets_of result ≡ join_on row (2 ^ code) [] (sets_of parts)) }
{
    let mut whole: Bits = 1 << code;
    // The others go to a table of their own, behind a place for the one: parts that grow by value are copied at every turn.
    let mut kept = [0; CODE_COUNT];
    let mut m: usize = 1;
    for &part in &parts.sets[..parts.n] {
        if part & row != 0 {
            whole |= part;
        } else {
            kept[m] = part;
            m += 1;
        }
    }
    kept[0] = whole;
    Parts { n: m, sets: kept }
}

// The components of a relation within a set of codes, by their smallest codes.
pub fn components(
    rows: [Bits; CODE_COUNT],
    cols: [Bits; CODE_COUNT],
    bond: Bond,
    within: CodeSet,
) -> Parts
    ensures { Components rows cols bond within.bits result }
{
    let mut parts = Parts::new();
    for c in (0..NO_CODE).rev() {
        let k = c as usize;
        if within.has_first(c) {
            parts = joined(parts, bonds(bond, rows[k], cols[k]), c);
        }
    }
    parts
}
