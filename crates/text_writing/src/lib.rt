// Text and numbers written into lent bytes from a place on: the place after them.
// `out` and `at` go together and stay two parameters: the functions are public, and `Wrote` names both. Nor are they `Display`: the theorems speak of lent bytes.
#![tactic(auto)]

ghost use Rattle.std.specs.Prelude.{◌+◌, ◌≤◌, ◌<◌, [], ◌∷◌, length};
ghost use Rattle.rules.specs.Listing.{decimal};
ghost use Rattle.text_writing.specs.Writing.{Wrote};

pub fn byte(out: &mut [u8], at: usize, b: u8) -> usize
    requires { at < length out.old }
    ensures { Wrote 1 out.old at (b ∷ []) out.new result }
{
    out[at] = b;
    at + 1
}

pub fn text(out: &mut [u8], at: usize, s: &[u8]) -> usize
    requires { at + length s.now ≤ length out.old }
    ensures { Wrote (length s.now) out.old at s.now out.new result }
{
    let n = s.len();
    out[at..at + n].copy_from_slice(s);
    at + n
}

// A number of at most `digits` digits.
pub fn number(out: &mut [u8], at: usize, n: usize, digits: usize) -> usize
    requires { at + digits ≤ length out.old }
    ensures { Wrote digits out.old at (decimal digits n) out.new result }
{
    if digits == 0 {
        return at;
    }
    let low = (48 + n % 10) as u8;
    if n < 10 {
        return byte(out, at, low);
    }
    let next = number(out, at, n / 10, digits - 1);
    byte(out, next, low)
}
