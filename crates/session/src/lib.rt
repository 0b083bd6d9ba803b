// The Rust's kernel in one piece, and what ties the calls to it: definitions and theorems only, no code.
#![tactic(auto)]
