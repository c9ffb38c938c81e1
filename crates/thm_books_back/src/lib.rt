// Every book that is written is accepted and reads back: proofs alone.
#![tactic(auto)]
