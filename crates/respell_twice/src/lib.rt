// What a rewriting does around its passes, defined in specs/; proofs/ shows that the pass that measures says what the rules say, and that
// two passes answer and write what the rules do. There is no code here.
#![tactic(auto)]
