// The theorem of settling over any kind of table: specs/ and proofs/ hold it, and no code.
#![tactic(auto)]
