// The three demands, of the functions: specs and proofs alone.
#![tactic(auto)]
