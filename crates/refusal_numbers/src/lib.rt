// Each refusal that a function makes has the number of a reason with a name. This crate has definitions and laws alone
// (specs/, proofs/).
#![tactic(auto)]
