// The paper's numbers by name, and our numbers of its queues, below all other crates. specs/ has the same numbers under names of its own
// (`load_req_type` for LOAD_REQ), for definitions and contracts.
// In reading order: types, states, ports, queues, kinds, refusals, tags, limits.
#![tactic(auto)]

pub mod kinds;
pub mod limits;
pub mod ports;
pub mod queues;
pub mod refusals;
pub mod states;
pub mod tags;
pub mod types;
