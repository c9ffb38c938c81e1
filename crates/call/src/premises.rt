// What the table rules grant to the code of the calls: proofs alone.
