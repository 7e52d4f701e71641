// Reads a tree block and then a log on standard input and prints a verdict for each episode, or the line of a refusal.
#![tactic(auto)]

// Like `mine`, but for the sizes and the call: a main for both would be longer than the two.
fn main() {
    // A tree block, and one byte more than the longest log.
    let mut input = [0u8; 8705];
    let n = io::read_full(0, &mut input);
    let mut text = [0u8; 53040];
    let k = text_judged::judged_text(&input[..n], &mut text);
    io::write_all(1, &text[..k]);
}
