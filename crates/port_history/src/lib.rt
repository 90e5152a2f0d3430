// Each accepted submit of the port leaves once, with one last word. There is no code here: specs/ has what the history says of a
// key and what one call does to the records, proofs/ that the two agree.
#![tactic(auto)]
