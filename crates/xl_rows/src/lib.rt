// Document 01, 'XL': its table. There is no code here: specs/ has the table, proofs/ its laws, and crate xl_core the code.
#![tactic(auto)]
