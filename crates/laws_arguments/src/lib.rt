// Which arguments a command has, their limits, and where each stands in the bytes (document 02, request 2026-12); which of its bytes are a
// name, and that a barred one is 16 (2026-06). There is no code here.
#![tactic(auto)]
