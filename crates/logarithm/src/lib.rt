// Logarithms and powers by tables, near the powers of document 01's rates.
#![tactic(auto)]

pub mod tables;
