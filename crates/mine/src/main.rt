// Reads a log on standard input and prints the listing of its tree, or the line of a refusal.
#![tactic(auto)]

fn main() {
    // One byte more than the longest log.
    let mut log = [0u8; 8193];
    let n = io::read_full(0, &mut log);
    let mut text = [0u8; 2169];
    let k = text_mined::mined_text(&log[..n], &mut text);
    io::write_all(1, &text[..k]);
}
