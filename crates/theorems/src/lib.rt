// The theorems about a bench in lent words. No code: the statements stand in specs/, in this order, and their proofs in proofs/.
// - specs/WellFormed: which words are a bench; Calls: a list of calls on words is the list of the rules' steps
// - Claims: demand 3 of document 01 and order 1 of document 02, of every list of calls on a started bench
// - Messages: the messages that a call sent, out of the words after it, and their flits; Beats: P1 to P10
#![tactic(auto)]
