// What a program in another language is promised: the number that each call gives back is read again, and
// a chain of calls of the C interface on one image is a run of the rack. The theorems stand in specs/; there is no code here.
#![tactic(auto)]
