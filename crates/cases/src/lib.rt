// Layer signatures. P1 to P12 as one theorem, and one outcome for every public call. It has no code of its own.
#![tactic(auto)]
