// Definitions and laws on lists that several crates cite. No code.
#![tactic(auto)]
