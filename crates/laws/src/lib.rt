// The laws of the rules are theorems (proofs/) about their definitions (crate `rules`). They stand apart, so that a changed definition meets the
// cases first, in seconds.
#![tactic(auto)]
