// A book that is composed from its account reads back as the account: proofs alone.
#![tactic(auto)]
