//! Facts about lists, searches and look-ups, which the other crates cite. There is no code here, only definitions and proofs.
#![tactic(auto)]
