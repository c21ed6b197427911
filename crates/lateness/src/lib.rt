// That the latest finish told of a domain is the latest there is: no run exceeds it, and the script
// handed back reaches it. No code.
#![tactic(auto)]
