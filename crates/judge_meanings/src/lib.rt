#![tactic(auto)]

// No code: what a table of rows means in the language of a tree.
