// Laws, no code: the search leaves the list of hits that the rules tell of in the row.
#![tactic(auto)]
