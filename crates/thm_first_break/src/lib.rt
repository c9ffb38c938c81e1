// A text is refused at its first break, with the number that names it: proofs alone.
#![tactic(auto)]
