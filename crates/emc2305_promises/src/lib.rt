// No code: what is promised over all layers (specs/), and why it holds (proofs/).
#![tactic(auto)]
