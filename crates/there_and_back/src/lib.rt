// There and back, request eight of document 02: definitions and proofs only. In specs/ is what is claimed of an accepted update that nobody
// confirms and that is powered up until its fallback has finished, for every image check that reads the firmware sectors.
#![tactic(auto)]
