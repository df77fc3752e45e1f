// What holds of the reader of a release sheet: theorems only.
#![tactic(auto)]
