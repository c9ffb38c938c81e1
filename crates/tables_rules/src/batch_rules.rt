// The table rules of the batch places, and that they are just what the tables are asked: proofs alone.
