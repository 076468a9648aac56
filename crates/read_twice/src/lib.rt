// Two passes, the one that judges and the one that fills, answer what the rules answer. No code.
#![tactic(auto)]
