// The standard's own rules hold of its definitions, and its examples come out: theorems only.
#![tactic(auto)]
