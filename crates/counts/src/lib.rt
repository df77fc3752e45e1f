// Erase counts, request seven of document 02: definitions and proofs only. In specs/ are the row of counts, the checks before the work, what
// the counted calls do and answer, and what is claimed of them.
#![tactic(auto)]
