// The theorems between the writer and the reader of a header: definitions and proofs only.
#![tactic(auto)]
