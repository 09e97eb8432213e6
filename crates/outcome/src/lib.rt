// What the outcomes of calls have in common is in specs/; there is no code here.

#![tactic(auto)]
