// The motions of the house spelling stand only where the place differs: over acts. It stands on no law of the round trip. No code.
#![tactic(auto)]
