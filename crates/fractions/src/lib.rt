#![tactic(auto)]

// Exact fractions: definitions and laws only, no code.
