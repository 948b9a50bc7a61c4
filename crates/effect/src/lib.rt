// An event's own effect is a definition (specs/) with its laws (proofs/). What it answers is a `Result<Candidates, Refusal>`: who can move
// then, if nobody could before; or a refusal, which changes nothing.
#![tactic(auto)]
