// What a list of calls leaves; and that two lists show a domain the same, whichever scripts its
// rivals run. No code.
#![tactic(auto)]
