// The scheduling theory of one project, as theorems. Definitions stand in specs/, laws and the theorem in proofs/;
// there is no code here.
#![tactic(auto)]
