#![tactic(auto)]

// No code: the definitions of the papers and what is proved of them.
