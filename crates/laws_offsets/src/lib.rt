// Where a refusal points: the offsets of document 01, said of the bytes. The statements stand in specs/. No code.
#![tactic(auto)]
