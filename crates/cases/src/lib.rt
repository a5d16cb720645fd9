// The fourteen worked cases of 01, as one theorem over one list, and those of requests of 02, as another: specs/Cases has the lists,
// proofs/Worked the theorems. There is no code.
#![tactic(auto)]
