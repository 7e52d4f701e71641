// Sets of codes, one bit a code.
#![tactic(auto)]

ghost use Rattle.std.specs.Prelude.{◌≡◌, ◌||◌, ◌&&◌, not, ℕ, ◌<◌, eqb, ltb};
ghost use Rattle.rules.specs.Mining.{head_of};
ghost use Rattle.rules.specs.Calls.{code_count};
ghost use Rattle.code_sets.specs.Bits.{has, count, least, listed};

use rules::NO_CODE;

// A bit for each code.
pub type Bits = u32;

#[derive(Clone, Copy, Debug, Default, PartialEq, Eq)]
pub struct CodeSet {
    pub bits: Bits,
}

impl CodeSet {
    // The number of codes, a bit for each.
    pub const WIDTH: u32 = 32;

    // The bits of every code.
    pub const ALL: Bits = 4294967295;

    pub const EMPTY: CodeSet = CodeSet { bits: 0 };

    pub const FULL: CodeSet = CodeSet { bits: CodeSet::ALL };

    // No code.
    pub fn none() -> Self
        ensures { result.bits ≡ 0 }
    {
        CodeSet::EMPTY
    }

    // Every code.
    pub fn every() -> Self
        ensures { (i : ℕ) → has result.bits i ≡ ltb i code_count }
    {
        CodeSet::FULL
    }

    // Is there no code in the set?
    pub fn is_empty(self) -> bool
        ensures { result ≡ eqb self.bits 0 }
    {
        self.bits == 0
    }

    // One code; what is above the largest is none.
    pub fn one(c: u8) -> Self
        ensures { (i : ℕ) → has result.bits i ≡ (ltb c code_count && eqb i c) }
    {
        CodeSet::EMPTY.with(c)
    }

    // Is a code in the set? Of what is known to be a code nothing is asked but its bit. A code is its own remainder: so the compiler keeps this apart from `has_first`.
    pub fn has_code(self, c: u8) -> bool
        requires { c < code_count }
        ensures { result ≡ has self.bits c }
    {
        (self.bits >> (c % NO_CODE)) % 2 == 1
    }

    // The same, asked first of every code in a loop: the bit by which other sets are asked is then made only where this one has the code.
    pub fn has_first(self, c: u8) -> bool
        requires { c < code_count }
        ensures { result ≡ has self.bits c }
    {
        (self.bits >> c) % 2 == 1
    }

    // The same of any byte: what is above the largest code is in no set.
    pub fn has(self, c: u8) -> bool
        ensures { result ≡ has self.bits c }
    {
        if c < NO_CODE {
            return self.has_code(c);
        }
        false
    }

    // The set with a code besides its own.
    pub fn with_code(mut self, c: u8) -> Self
        requires { c < code_count }
        ensures { (i : ℕ) → has result.bits i ≡ (has self.bits i || eqb i c) }
    {
        self.bits |= 1 << (c % NO_CODE);
        self
    }

    // The same with any byte: what is above the largest code changes nothing.
    pub fn with(self, c: u8) -> Self
        ensures { (i : ℕ) → has result.bits i ≡ (has self.bits i || (ltb c code_count && eqb i c)) }
    {
        if c < NO_CODE {
            return self.with_code(c);
        }
        self
    }

    pub fn union(self, other: CodeSet) -> Self
        ensures { (i : ℕ) → has result.bits i ≡ (has self.bits i || has other.bits i) }
    {
        CodeSet {
            bits: self.bits | other.bits,
        }
    }

    // The codes of both.
    pub fn meet(self, other: CodeSet) -> Self
        ensures { (i : ℕ) → has result.bits i ≡ (has self.bits i && has other.bits i) }
    {
        CodeSet {
            bits: self.bits & other.bits,
        }
    }

    pub fn minus(self, other: CodeSet) -> Self
        ensures { (i : ℕ) → has result.bits i ≡ (has self.bits i && not (has other.bits i)) }
    {
        CodeSet {
            bits: self.bits & !other.bits,
        }
    }

    // How many codes.
    pub fn count(self) -> u32
        ensures { result ≡ count code_count (has self.bits) }
    {
        u32::count_ones(self.bits)
    }

    // The smallest code; the width where there is none, as `least` says.
    pub fn smallest(self) -> u32
        ensures { result ≡ least code_count (has self.bits) }
    {
        u32::trailing_zeros(self.bits)
    }

    // The smallest code; 0 where there is none, as `head_of` says.
    pub fn first(self) -> u8
        ensures { (result < code_count) × (result ≡ head_of (listed code_count self.bits)) }
    {
        let c = self.smallest();
        if c < CodeSet::WIDTH {
            return c as u8;
        }
        0
    }

    // The codes one by one, from the smallest on.
    pub fn codes(self) -> Codes
        ensures { result.left ≡ self.bits }
    {
        Codes { left: self.bits }
    }
}

// The codes of a set that are left of a walk over it.
#[derive(Clone, Copy)]
pub struct Codes {
    pub left: Bits,
}

impl Iterator for Codes {
    ghost use Rattle.std.specs.Iterator.{YieldsFirst, item_count};

    type Item = u8;

    ghost next_gives = { YieldsFirst (λ s. listed code_count s.left) };

    ghost remaining = { item_count (λ s. listed code_count s.left) };

    fn next(&mut self) -> Option<u8> {
        if self.left == 0 {
            return None;
        }
        let c = CodeSet { bits: self.left }.first();
        self.left &= self.left - 1;
        Some(c)
    }
}
