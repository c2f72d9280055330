// Document 01's proved set: its worked examples follow from the rules, by one statement over the list of them
// (specs/ProvedSet.antt).
#![tactic(auto)]
