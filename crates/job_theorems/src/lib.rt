// The theorems about jobs (01, 'Jobs'). No code: the statements stand in specs/, in this order, and their proofs in proofs/.
// - specs/Rules: the listing by 01's rules alone, and that the listing on words is it; Listing: the listing as a job is walked
// - specs/Run: all pieces of a run, one after the other, are that listing or the line of a refusal; and the words that they leave
#![tactic(auto)]
