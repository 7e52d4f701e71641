// Pairs among parts: the i-th of some becomes one with the i-th of others.
#![tactic(auto)]

ghost use Rattle.std.specs.Prelude.{◌≡◌, not, ◌&&◌, ◌≤◌, ◌<◌, length};
ghost use Rattle.std.specs.Int.Bits.{bit_or};
ghost use Rattle.rules.specs.Calls.{code_count};
ghost use Rattle.code_sets.specs.Bits.{listed};
ghost use Rattle.cut_parts.specs.Sets.{sets_of, meets};
ghost use Rattle.cut_pairs.specs.Pairs.{places_of, pair_at, pair_all};

use code_sets::{Bits, CodeSet};
use cut_parts::Parts;

// The places of the parts with a code of one set and none of another.
pub fn places_with(parts: Parts, codes: Bits, others: Bits) -> Bits
    requires { parts.n ≤ code_count }
    ensures { listed code_count result ≡ places_of 0 (λ p. meets codes p && not (meets others p)) (sets_of parts) }
{
    let mut places: Bits = 0;
    for (k, &part) in parts.sets[..parts.n].iter().enumerate() {
        if part & codes != 0 && part & others == 0 {
            places |= 1 << (k as u8);
        }
    }
    places
}

// The parts at two places become one, at the earlier place.
fn join_pair(sets: &mut [Bits], i: u8, j: u8)
    requires { (i < length sets.old) × (j < length sets.old) }
    ensures { sets.new ≡ pair_at 0 bit_or i j sets.old }
{
    let earlier = i.min(j);
    sets[earlier as usize] = sets[i as usize] | sets[j as usize];
}

// The i-th part of those at some places becomes one with the i-th of those at others, at the earlier place.
pub fn join_pairs(sets: &mut [Bits], places: Bits, others: Bits)
    requires { length sets.old ≡ code_count }
    ensures { sets.new ≡ pair_all 0 bit_or (listed code_count places) (listed code_count others) sets.old }
{
    let ours = CodeSet { bits: places }.codes();
    let theirs = CodeSet { bits: others }.codes();
    for (i, j) in ours.zip(theirs) {
        join_pair(sets, i, j);
    }
}
