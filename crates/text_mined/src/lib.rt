// The whole text that the mining program prints for a log, so that the program only moves bytes.
#![tactic(auto)]

ghost use Rattle.std.specs.Prelude.{◌≡◌, ◌≤◌, length};
ghost use Rattle.rules.specs.Printed.{mined_text};
ghost use Rattle.text_writing.specs.Writing.{Wrote};
ghost use Rattle.text_mined.specs.Mined.{Listable, answer_text};

use rules::{Answer, MINE_WORK, TREE_SIZE};

// The listing of the tree that mining wrote, or the line of a refusal.
#[tactic(auto, using(text_writing::proofs::WroteLaws::wrote_most))]
fn answer_text(r: Answer, tree: &[u8], text: &mut [u8]) -> usize
    requires { (length tree.now ≡ 512) × Listable r × (2169 ≤ length text.old) }
    ensures { Wrote 2169 text.old 0 (answer_text r tree.now) text.new result }
{
    match r {
        Ok(nodes) => text_listing::write_listing(tree, nodes, text),
        Err(refusal) => {
            text_replies::write_refusal(u8::from(refusal.reason), refusal.place, text)
        }
    }
}

// What the mining program prints: at most 2,169 bytes.
pub fn mined_text(log: &[u8], text: &mut [u8]) -> usize
    requires { 2169 ≤ length text.old }
    ensures { Wrote 2169 text.old 0 (mined_text log.now) text.new result }
{
    let mut tree = [0u8; TREE_SIZE];
    let mut work = [0u8; MINE_WORK];
    let r = mine_call::mine(log, &mut tree, &mut work);
    answer_text(r, &tree, text)
}
