// The theorems on there and back as it is delivered: definitions and proofs only. They are of calls of `power_up`, and of `power_up_counted`,
// that gave what their contracts say.
#![tactic(auto)]
