// Every demand of the owner, gathered: proofs/ has each in files of its own. There is no code here.
#![tactic(auto)]
