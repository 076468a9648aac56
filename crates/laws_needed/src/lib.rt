// The theorem that each `H` and `V` line of a house spelling is needed. Its statement stands in specs/, to be read without the proof. No code.
#![tactic(auto)]
