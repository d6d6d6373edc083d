// Are the numbers beside a phase of the home those that the phase asks for?
ghost use Rattle.std.specs.Prelude.{◌≡◌};
ghost use Rattle.well_formed.specs.Fields.{phase_numbers_ok};

use crate::fields;
use layout::codes::{
    DIRECTORY_E, DIRECTORY_S, PHASE_ACKS_FOR_EVICTION, PHASE_ACKS_FOR_STORE, PHASE_IDLE,
    PHASE_LOADING_FOR_LOAD, PHASE_LOADING_FOR_STORE, PHASE_OWNER_FOR_EVICTION,
    PHASE_OWNER_FOR_LOAD, PHASE_OWNER_FOR_STORE, PHASE_STORING,
};

// The directory, the requester and the tiles still owed.
#[tactic(auto, unfolding(crate::specs::Fields::phase_numbers_ok))]
pub fn phase_numbers_ok(count: u64, phase: u64, directory: u64, requester: u64, owed: u64) -> bool
    ensures { result ≡ phase_numbers_ok count phase directory requester owed }
{
    match phase {
        PHASE_IDLE | PHASE_STORING => (requester | owed) == 0,
        PHASE_LOADING_FOR_LOAD | PHASE_LOADING_FOR_STORE => (requester < count) & (owed == 0),
        PHASE_OWNER_FOR_LOAD | PHASE_OWNER_FOR_STORE => {
            (directory == DIRECTORY_E) & (requester < count) & (owed == 0)
        }
        PHASE_OWNER_FOR_EVICTION => (directory == DIRECTORY_E) & ((requester | owed) == 0),
        PHASE_ACKS_FOR_STORE => (directory == DIRECTORY_S)
            & (requester < count)
            & fields::in_mask(owed, count),
        PHASE_ACKS_FOR_EVICTION => (directory == DIRECTORY_S)
            & (requester == 0)
            & fields::in_mask(owed, count),
        _ => false,
    }
}
