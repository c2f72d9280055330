// What capture files of any format share: records end to end behind a file header, and a file written record after
// record. This crate has definitions and laws alone (specs/, proofs/).
#![tactic(auto)]
