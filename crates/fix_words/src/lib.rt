#![tactic(auto)]

// FIX 4.4 messages of our records, as definitions: the tables, the values, the frame, the writer's
// questions and the reader; that what was written is read, and that no other bytes are. No code. Rests
// on format, records and decimal.
