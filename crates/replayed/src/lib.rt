// Theorems about replay (proofs/), and the words they are stated with (specs/). No code stands here.
#![tactic(auto)]
