// No call of the port leaves a state that the next call refuses: proofs/ has the law of a change, each call, and any list of calls.
// There is no code here.
#![tactic(auto)]
