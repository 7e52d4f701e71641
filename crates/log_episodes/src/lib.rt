#![tactic(auto)]

// No code: the episodes of a log, and what a sound log says of them.
