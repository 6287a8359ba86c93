// No code: what every crate above says and cites (specs/, proofs/).
#![tactic(auto)]
