//! What a walk over a store goes along, from each table, column or key to the next, and what it has gone through so far:
//! definitions and lemmas. No code runs here.
#![tactic(auto)]
