// What holds of the sealed profile: statements and proofs only.
#![tactic(auto)]
