// The rules of captures as they arrive: what one call answers, and the claims over all calls. (specs/)
#![tactic(auto)]
