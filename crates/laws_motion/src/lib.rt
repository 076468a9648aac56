// Motions, the numbers of records and the reasons of refusals over the integers, said from outside the definitions. Statements in specs/,
// proofs in proofs/. No code.
#![tactic(auto)]
