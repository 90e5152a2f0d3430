// What the walks of a lent list of records fold, each once over any step. There is no code here: the crates above cite the laws
// for their own walks.
#![tactic(auto)]
