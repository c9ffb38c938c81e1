// Wrong engines, and the promise that each breaks: specs and proofs alone.
#![tactic(auto)]
