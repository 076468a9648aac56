// Laws, no code: two passes and a search answer what the rules answer.
#![tactic(auto)]
