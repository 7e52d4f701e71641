// The whole text that the judging program prints for a tree and a log, so that the program only moves bytes.
#![tactic(auto)]

ghost use Rattle.std.specs.Prelude.{◌≡◌, ◌≤◌, length, take, drop};
ghost use Rattle.rules.specs.Printed.{judge_reading};
ghost use Rattle.text_judged.specs.Texts.{JudgedInto};

use rules::{Answer, JUDGE_WORK, TREE_SIZE};

// The tree block at the front of an input, or the whole of a shorter one. The bench has the like at any size, and no contract for it.
#[tactic(auto, using(std::proofs::lemmas::List::take_min))]
fn front(input: &[u8]) -> &[u8]
    ensures { result.now ≡ take 512 input.now }
{
    &input[..TREE_SIZE.min(input.len())]
}

// What follows the tree block.
fn rest(input: &[u8]) -> &[u8]
    ensures { result.now ≡ drop 512 input.now }
{
    &input[TREE_SIZE.min(input.len())..]
}

// The tree checked, then the whole log.
#[tactic(auto, unfolding(rules::specs::Printed::judge_reading))]
fn judge_reading(input: &[u8]) -> Answer
    ensures { result ≡ judge_reading input.now }
{
    tree_check::check(front(input))?;
    log_whole::read_log(rest(input))
}

// What the judging program prints: at most 53,040 bytes.
pub fn judged_text(input: &[u8], text: &mut [u8]) -> usize
    requires { 53040 ≤ length text.old }
    ensures { JudgedInto input.now text.old text.new result }
{
    match judge_reading(input) {
        Err(refusal) => {
            text_replies::write_refusal(u8::from(refusal.reason), refusal.place, text)
        }
        Ok(_) => {
            let mut work = [0u64; JUDGE_WORK];
            text_verdicts::log_lines(front(input), rest(input), &mut work, text)
        }
    }
}
