// Isolation of the library's C functions: what a list of a host's calls leaves in its arrays. No
// code.
#![tactic(auto)]
