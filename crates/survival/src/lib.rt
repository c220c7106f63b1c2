// Theorems about images (proofs/): what may be lost of one that mounts, and it still shows the same. No code stands here.
#![tactic(auto)]
