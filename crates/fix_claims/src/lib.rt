// What `fix_write` and `fix_read` return to a host, and in specs/ the definitions that their contracts
// cite, the promises and the proofs of them. No code. Rests on fix_words and records.
#![tactic(auto)]

// The refusal, or 0 and the length of what was written. With a refusal the length is 0. The C structure
// has both fields.
#[repr(C)]
#[derive(Clone, Copy)]
pub struct Written {
    pub refusal: u32,
    pub length: u64,
}

// The fields of a message: each one's tag, where its value stands and how long it is; zeros behind
// them and with a refusal. Refusal, count and three arrays, since the C structure has them so.
#[repr(C)]
#[derive(Clone, Copy)]
pub struct FixFields {
    pub refusal: u32,
    pub count: u32,
    pub tag: [u32; 32],
    pub at: [u64; 32],
    pub length: [u64; 32],
}
