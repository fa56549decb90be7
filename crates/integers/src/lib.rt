// Laws of integers, bit sets and lists for the proofs of the crates above: specs/ and proofs/ hold them, and no code.
#![tactic(auto)]
