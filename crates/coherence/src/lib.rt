// Demand 3 and order 1, proved of 01's rules (crate protocol, whose specs/ have the statements). No code. proofs/, in reading order:
// - what needs no invariant: Waiting (who waits), Effect and Fair (passing over), Weight, Sent and Falls (the measure), Bounded
// - Invariant; that each rule keeps it: TileSteps, ViewSteps, Moves, Calls, with Written and Said for what a history says; Runs
// - what follows: Bound, Quiet, and the theorems: Theorem (demand 3), Order1
#![tactic(auto)]
