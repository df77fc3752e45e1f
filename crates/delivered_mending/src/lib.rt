// The theorems on mending as it is delivered: definitions and proofs only. They are of calls of `mend` that gave what their contract says,
// and of calls of `power_up` after them.
#![tactic(auto)]
