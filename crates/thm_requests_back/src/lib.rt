// What an administrator writes reads back as the same values, and what was read and is written again reads as the same request: proofs alone.
#![tactic(auto)]
