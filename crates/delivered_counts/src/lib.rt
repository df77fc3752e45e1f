// The theorems on the counted power-up as it is delivered: definitions and proofs only. They are of calls of `power_up_counted` that gave what
// its contract says.
#![tactic(auto)]
