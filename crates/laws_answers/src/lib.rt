// Theorems of the answer functions of the rules, from which the demands are proved. Their statements stand in specs/, to be read without
// the proofs. No code.
#![tactic(auto)]
