// The demands of the department, over the contracts of the routines: specs/Demands.antt, to be read on its own. No code.
#![tactic(auto)]
