// Reads a log on standard input and writes the block of its tree; the line of a refusal goes to standard error.
#![tactic(auto)]

use rules::{MINE_WORK, Refusal, TREE_SIZE};

fn refuse(refusal: Refusal) {
    let mut line = [0u8; 21];
    let k = text_replies::write_refusal(u8::from(refusal.reason), refusal.place, &mut line);
    io::write_all(2, &line[..k]);
}

fn main() {
    // One byte more than the longest log.
    let mut log = [0u8; 8193];
    let n = io::read_full(0, &mut log);
    let mut tree = [0u8; TREE_SIZE];
    let mut work = [0u8; MINE_WORK];
    match mine_call::mine(&log[..n], &mut tree, &mut work) {
        Ok(_) => {
            io::write_all(1, &tree);
        }
        Err(refusal) => refuse(refusal),
    }
}
