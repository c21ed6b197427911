// The worked figures of document 01 that are marked to be proved, those of document 02's E2, and
// examples of the step bound (E3), of the plan written back (E4), of the latest finish (E6), of
// written lines (E7) and of one domain's log (E8). No code.
#![tactic(auto)]
