// Some sets of codes in order, as the parts of a cut.
#![tactic(auto)]

ghost use Rattle.std.specs.Prelude.{◌≡◌, [], ◌∷◌, ◌++◌, Bool, not, ◌&&◌, ℕ, ◌+◌, ◌≤◌, ◌<◌, length, take, drop};
ghost use Rattle.rules.specs.Words.{any, keep};
ghost use Rattle.rules.specs.Calls.{code_count};
ghost use Rattle.code_sets.specs.Bits.{has};
ghost use Rattle.cut_parts.specs.Sets.{sets_of};

use code_sets::Bits;
use rules::CODE_COUNT;

// Some sets of codes in order, the first n of `sets`. A length beside its table: there is no heap, and memory is fixed.
#[derive(Clone, Copy, Debug, PartialEq, Eq)]
pub struct Parts {
    pub n: usize,
    pub sets: [Bits; CODE_COUNT],
}

impl Parts {
    // No part.
    pub fn new() -> Self
        ensures { result.n ≡ 0 }
    {
        Parts {
            n: 0,
            sets: [0; CODE_COUNT],
        }
    }

    // One more part, after the others.
    pub fn with(mut self, part: Bits) -> Self
        requires { self.n < code_count }
        ensures { (result.n ≡ self.n + 1) × (sets_of result ≡ sets_of self ++ (part ∷ [])) }
    {
        self.sets[self.n] = part;
        self.n += 1;
        self
    }

    // Those that pass a test stay, in their order.
    pub fn retain<F: Fn(Bits) -> bool>(&mut self, test: F)
        requires few { self.old.n ≤ code_count }
        requires test { F.IsAlwaysCallable test }
        ensures few { self.new.n ≤ self.old.n }
        ensures size { length self.new.sets ≡ code_count }
        ensures kept { (p : ℕ → Bool) → ((x : ℕ) (b : Bool) → F.post test x b → b ≡ p x) → sets_of self.new ≡ keep p (sets_of self.old) }
    {
        let mut kept: usize = 0;
        for i in 0..self.n {
            let part = self.sets[i];
            if test(part) {
                self.sets[kept] = part;
                kept += 1;
            }
        }
        self.n = kept;
    }
}

// A part put at a place, the later ones one place on.
pub fn inserted(mut parts: Parts, at: usize, part: Bits) -> Parts
    requires { (parts.n < code_count) × (at ≤ parts.n) }
    ensures { (result.n ≡ parts.n + 1) × (sets_of result ≡ take at (sets_of parts) ++ (part ∷ drop at (sets_of parts))) }
{
    // A loop by hand of what `rotate_right` does: for that the archive would ask for one name more, memmove.
    let mut hand = part;
    for i in at..parts.n {
        let next = parts.sets[i];
        parts.sets[i] = hand;
        hand = next;
    }
    parts.with(hand)
}

// The codes that stand in no part.
pub fn remaining(parts: Parts, codes: Bits) -> Bits
    requires { parts.n ≤ code_count }
    ensures { (c : ℕ) → has result c ≡ (has codes c && not (any (λ p. has p c) (sets_of parts))) }
{
    let mut left = codes;
    for part in &parts.sets[..parts.n] {
        left &= !part;
    }
    left
}
