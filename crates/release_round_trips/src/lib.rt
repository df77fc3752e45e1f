// The theorems on a firmware's header as it is made: definitions and proofs only.
#![tactic(auto)]
