// No code: what is promised of the parts with fewer fans (specs/), and why it holds (proofs/).
#![tactic(auto)]
