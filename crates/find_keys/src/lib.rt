// Laws, no code: the keys that the moves over the outline give are those of the records that the rules tell of.
#![tactic(auto)]
