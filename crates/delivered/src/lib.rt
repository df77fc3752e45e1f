// The theorems on what is delivered: definitions and proofs only. Demand 3 is of calls of `power_up` that gave what their contract
// says; the marked cases are of the rules that this contract cites, with the delivered image check.
#![tactic(auto)]
