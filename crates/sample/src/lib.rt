// Outside dumps and their listings, computed from the definitions (proofs/). No code stands here.
#![tactic(auto)]
