//! When a bank can be recovered, and which operations leave it so.
#![tactic(auto)]
