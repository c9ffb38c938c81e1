// The grammar of a request, and that the reader accepts it and nothing else: proofs alone.
#![tactic(auto)]
