// What is told of a break is what breaks the text: proofs alone.
#![tactic(auto)]
