// Document 01's rules for one line, as definitions, and the statements of the theorems about them. The theorems are proved in `coherence`;
// here only runs are computed, so that a wrong rule is refused in seconds.
// specs/, in 01's order: Parts (what tiles, home, memory and queues hold), Tile, Home and Bench (the rules of each call), Calls (the calls
// by number), Answers (what a call answers), Runs (lists of calls), Demand3, Order1 and Beats (the statements).
#![tactic(auto)]

// What a call answers in the paper's numbers, as the definitions, C and a listing say it (the code's own is `calls::Answer`, which
// `calls::told` tells in these): refusal number, kind and value; on which queues it sent messages, by number, and the tiles whose queues
// they are, as a mask.
#[derive(Clone, Copy)]
pub struct Answer {
    pub refusal: u64,
    pub kind: u64,
    pub value: u64,
    pub sent: u64,
    pub tiles: u64,
}
