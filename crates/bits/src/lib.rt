// The bits of a number, for specifications and proofs: a number is determined by its bits, so an identity of words or of sets is shown bit by bit.
#![tactic(auto)]
