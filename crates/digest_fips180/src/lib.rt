// SHA-256 as FIPS 180-4 defines it: definitions and some laws, in specs/ and proofs/, which the digest cites.
#![tactic(auto)]
