// The history of a write, and what it says of the calls of the write: definitions and facts alone.
#![tactic(auto)]
