#![tactic(auto)]

// What the report of a day accounts for: definitions and theorems only, no code.
