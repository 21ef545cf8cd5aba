#![tactic(auto)]

// A part of a book moved behind another: definitions on books, and laws about them, for the call that
// retires done orders and for what is promised of it. No code. Rests on store and machine.
