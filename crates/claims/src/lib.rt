#![tactic(auto)]

// Demands 1 and 3 on bytes, as statements in specs/ and proofs. No code. Rests on step's definitions of
// the entries and on machine.
