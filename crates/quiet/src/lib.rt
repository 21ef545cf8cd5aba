#![tactic(auto)]

// That nothing notices when done orders are taken out of a book: an event that names nothing of theirs does the
// same to what is left, and gets the same answer. On books: definitions, and laws about them. No code. Rests on
// parts and machine.
