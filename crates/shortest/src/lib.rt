// No accepted text is shorter than the canonical one. No code.
#![tactic(auto)]
