// The home gives up its line (01's home eviction).
// Functions, no methods: each bears the name of its definition, whose first argument is the home, and is read beside it.
ghost use Rattle.std.specs.Prelude.{◌≡◌};
ghost use Rattle.home_rules.specs.Moves.{evict_shared, evict_valid, evict_line};

use crate::moves::{HomeMove, HomeNumbers, LineSource, NONE, NOT_VALID};
use layout::codes::{
    DIRECTORY_I, DIRECTORY_S, PHASE_ACKS_FOR_EVICTION, PHASE_IDLE, PHASE_OWNER_FOR_EVICTION,
};
use numbers::refusals::Refusal;
use numbers::types::STORE_FWD;

// An empty mask of sharers acts as directory I.
fn evict_shared(home: HomeNumbers) -> Result<HomeMove, Refusal>
    ensures { result ≡ evict_shared home }
{
    if home.holders == NONE {
        home.leave(home.dirty, LineSource::Stay)
    } else {
        Ok(home.invalidate(home.holders, home.holders, PHASE_ACKS_FOR_EVICTION, NONE))
    }
}

fn evict_valid(home: HomeNumbers) -> Result<HomeMove, Refusal>
    ensures { result ≡ evict_valid home }
{
    match home.directory {
        DIRECTORY_I => home.leave(home.dirty, LineSource::Stay),
        DIRECTORY_S => evict_shared(home),
        _ => Ok(home.ask_owner(home.holders, PHASE_OWNER_FOR_EVICTION, NONE, STORE_FWD)),
    }
}

// 6 is tested before 5.
#[tactic(auto, unfolding(crate::specs::Moves::evict_line))]
pub fn evict_line(home: HomeNumbers) -> Result<HomeMove, Refusal>
    ensures { result ≡ evict_line home }
{
    if home.phase != PHASE_IDLE {
        return Err(Refusal::NotIdle);
    }
    if home.valid == NOT_VALID {
        return Err(Refusal::NoLine);
    }
    evict_valid(home)
}
