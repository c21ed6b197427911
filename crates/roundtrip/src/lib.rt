// That writing and reading undo each other, and when a writing is refused with 12 or with 17. No
// code.
#![tactic(auto)]
