// What is claimed of the whole library: definitions and proofs alone.
#![tactic(auto)]
