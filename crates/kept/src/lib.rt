#![tactic(auto)]

// An event that is taken leaves a book that keeps its rules, and its bytes are the book that the machine
// leaves: proofs on step's definitions of the entries, for the code that runs events one after the other
// and for what is promised. No code. Rests on step and machine.
