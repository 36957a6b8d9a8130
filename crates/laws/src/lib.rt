// No code: this crate holds definitions and laws that every other crate shares.
#![tactic(auto)]
