// Document 01's rules for the listing: the definitions that the promises of `listing` cite, and the claim that follows
// from them (specs/).
#![tactic(auto)]
