// Choices, scans and lists for the definitions of the other crates (specs/), and their laws (proofs/). No code stands here.
#![tactic(auto)]
