// The history of a write down to the bytes: XFER_RDYs as they were written, data as it was received, and the store. Definitions and facts alone.
#![tactic(auto)]
