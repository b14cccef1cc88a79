// The three demands, as theorems. They stand in specs/; there is no code here.
#![tactic(auto)]
