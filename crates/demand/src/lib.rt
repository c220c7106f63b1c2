// Demand 3 of document 01 (proofs/): a settle and a reclaim, cut anywhere and not cut. No code stands here.
#![tactic(auto)]
