// What a text in the house spelling looks like, as a grammar of bytes, and the theorem that every spelling is such a text. No code.
#![tactic(auto)]
