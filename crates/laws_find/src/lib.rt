// What the finder's list is, in the words of document 01, and the laws that it is so. There is no code here.
#![tactic(auto)]
