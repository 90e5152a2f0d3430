// Document 01, 'XL', over any calls: no code, only what crates/xl_calls/proofs shows of the steps of crate xl.
#![tactic(auto)]
