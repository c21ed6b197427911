// Every world that a run reaches from a fresh start passes the checks for 13 and 14. Every such run
// ends within its bound, and no window takes more steps than its length and one. None shows that
// dirty lines are written back through L2, and tables that are lent sound stay so. No code.
#![tactic(auto)]
