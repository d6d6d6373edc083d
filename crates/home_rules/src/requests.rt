// The home serves the request at the front of a tile's NoC1 (01's taking).
// Functions, no methods: each bears the name of its definition, whose first argument is the home, and is read beside it.
ghost use Rattle.std.specs.Prelude.{◌≡◌};
ghost use Rattle.home_rules.specs.Moves.{load_line, serve_shared, serve_owned, serve_line, serve, take_guard, take_front};

use crate::moves::{CLEAN, HomeMove, HomeNumbers, LineSource, NO_MISS, NONE, NOT_VALID, Sending};
use layout::codes::{
    DIRECTORY_I, DIRECTORY_S, PHASE_ACKS_FOR_STORE, PHASE_LOADING_FOR_LOAD,
    PHASE_LOADING_FOR_STORE, PHASE_OWNER_FOR_LOAD, PHASE_OWNER_FOR_STORE,
};
use numbers::refusals::Refusal;
use numbers::states::STATE_M;
use numbers::types::{LOAD_FWD, LOAD_MEM, LOAD_REQ, NO_MESSAGE, STORE_FWD, WBGUARD_REQ};

// Without a valid line: LOAD_MEM.
fn load_line(home: HomeNumbers, tile: u64, request: u64) -> Result<HomeMove, Refusal>
    ensures { result ≡ load_line home tile request }
{
    let phase = if request == LOAD_REQ {
        PHASE_LOADING_FOR_LOAD
    } else {
        PHASE_LOADING_FOR_STORE
    };
    let after = HomeNumbers {
        phase,
        valid: NOT_VALID,
        dirty: CLEAN,
        directory: DIRECTORY_I,
        holders: NONE,
        last: tile,
        requester: tile,
        owed: NONE,
        ..home
    };
    home.to_memory(after, LineSource::Clear, LOAD_MEM)
}

fn serve_shared(home: HomeNumbers, tile: u64, request: u64) -> HomeMove
    ensures { result ≡ serve_shared home tile request }
{
    if request == LOAD_REQ {
        return home.grant_shared(home.dirty, LineSource::Stay, home.holders, tile);
    }
    let owed = masks::del(home.holders, tile);
    if owed == NONE {
        home.grant_owner(home.dirty, LineSource::Stay, STATE_M, NO_MISS, tile)
    } else {
        home.invalidate(home.holders, owed, PHASE_ACKS_FOR_STORE, tile)
    }
}

fn serve_owned(home: HomeNumbers, tile: u64, request: u64) -> HomeMove
    ensures { result ≡ serve_owned home tile request }
{
    if home.holders == tile {
        let state = crate::moves::grant_state(request);
        home.grant_owner(home.dirty, LineSource::Stay, state, NO_MISS, tile)
    } else if request == LOAD_REQ {
        home.ask_owner(home.holders, PHASE_OWNER_FOR_LOAD, tile, LOAD_FWD)
    } else {
        home.ask_owner(home.holders, PHASE_OWNER_FOR_STORE, tile, STORE_FWD)
    }
}

fn serve_line(home: HomeNumbers, tile: u64, request: u64) -> HomeMove
    ensures { result ≡ serve_line home tile request }
{
    match home.directory {
        DIRECTORY_I => {
            let state = crate::moves::grant_state(request);
            home.grant_owner(home.dirty, LineSource::Stay, state, NO_MISS, tile)
        }
        DIRECTORY_S => serve_shared(home, tile, request),
        _ => serve_owned(home, tile, request),
    }
}

// Taking of a request of this type (a load, else a store) of the tile, by an idle home.
fn serve(home: HomeNumbers, tile: u64, request: u64) -> Result<HomeMove, Refusal>
    ensures { result ≡ serve home tile request }
{
    if home.valid == NOT_VALID {
        load_line(home, tile, request)
    } else {
        Ok(serve_line(home.taken(tile, home.marks), tile, request))
    }
}

// Taking of a guard of the tile, by an idle home: the mark is cleared.
fn take_guard(home: HomeNumbers, tile: u64) -> HomeMove
    ensures { result ≡ take_guard home tile }
{
    HomeMove {
        home: home.taken(tile, masks::del(home.marks, tile)),
        source: LineSource::Stay,
        sends: Sending::Silent,
    }
}

// Taking of the tile, whose NoC1 front is of this type, by an idle home.
#[tactic(auto, unfolding(crate::specs::Moves::take_front))]
pub fn take_front(home: HomeNumbers, tile: u64, request: u64) -> Result<HomeMove, Refusal>
    ensures { result ≡ take_front home tile request }
{
    match request {
        NO_MESSAGE => Err(Refusal::NothingThere),
        WBGUARD_REQ => Ok(take_guard(home, tile)),
        _ => serve(home, tile, request),
    }
}
