#![tactic(auto)]

// Facts: small lists of events and small books, each beside what must come of it, by computing. They pin
// the days, numbers and rules of docs/SCOPE.md, and rule out wrong answers. There is no code. Rests on machine, index
// and chain.
