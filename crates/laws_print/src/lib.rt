// A printed act is scanned as itself, and the commands of a spelling are the acts that were spelled. There is no code here.
#![tactic(auto)]
