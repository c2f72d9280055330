// Items that lie end to end in an input, as the records of a capture file do. This crate has definitions and laws
// alone (specs/, proofs/): a file format gives the step from one place to the next and shares them.
#![tactic(auto)]
