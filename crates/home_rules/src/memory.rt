// The home accepts the memory's ack.
// Functions, no methods: each bears the name of its definition, whose first argument is the home, and is read beside it.
ghost use Rattle.std.specs.Prelude.{◌≡◌};
ghost use Rattle.home_rules.specs.Moves.{load_acked, store_acked, memory_ack};

use crate::moves::{CLEAN, HomeMove, HomeNumbers, LineSource, MISS};
use layout::codes::{PHASE_LOADING_FOR_LOAD, PHASE_LOADING_FOR_STORE, PHASE_STORING};
use numbers::refusals::Refusal;
use numbers::states::{STATE_E, STATE_M};
use numbers::types::{LOAD_MEM_ACK, NO_MESSAGE};

// LOAD_MEM_ACK: the grant has L2 miss set.
fn load_acked(home: HomeNumbers) -> Result<HomeMove, Refusal>
    ensures { result ≡ load_acked home }
{
    let state = match home.phase {
        PHASE_LOADING_FOR_LOAD => STATE_E,
        PHASE_LOADING_FOR_STORE => STATE_M,
        _ => return Err(Refusal::Misfit),
    };
    Ok(home.grant_owner(CLEAN, LineSource::OfMessage, state, MISS, home.requester))
}

// STORE_MEM_ACK.
fn store_acked(home: HomeNumbers) -> Result<HomeMove, Refusal>
    ensures { result ≡ store_acked home }
{
    if home.phase == PHASE_STORING {
        Ok(home.dropped())
    } else {
        Err(Refusal::Misfit)
    }
}

// Memory ack, where the front of the queue from memory is of this type.
#[tactic(auto, unfolding(crate::specs::Moves::memory_ack))]
pub fn memory_ack(home: HomeNumbers, message: u64) -> Result<HomeMove, Refusal>
    ensures { result ≡ memory_ack home message }
{
    match message {
        NO_MESSAGE => Err(Refusal::NothingThere),
        LOAD_MEM_ACK => load_acked(home),
        _ => store_acked(home),
    }
}
