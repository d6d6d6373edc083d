// The home accepts what a tile's NoC3 brings: a write-back, or an ack.
// Functions, no methods: each bears the name of its definition, whose first argument is the home, and is read beside it.
ghost use Rattle.std.specs.Prelude.{◌≡◌};
ghost use Rattle.home_rules.specs.Moves.{write_back_stored, write_back, ack_dirty, ack_source, owner_shares, load_ack, owner_gives_up, owner_leaves, store_ack, cleared, one_less, owed_ack, inv_ack, accept_reply};

use crate::moves::{DIRTY, HomeMove, HomeNumbers, LineSource, NO_MISS, NONE, Sending, VALID};
use layout::codes::{
    DIRECTORY_E, DIRECTORY_I, PHASE_ACKS_FOR_EVICTION, PHASE_ACKS_FOR_STORE, PHASE_IDLE,
    PHASE_OWNER_FOR_EVICTION, PHASE_OWNER_FOR_LOAD, PHASE_OWNER_FOR_STORE,
};
use numbers::refusals::Refusal;
use numbers::states::{STATE_E, STATE_I, STATE_M};
use numbers::types::{LOAD_FWDACK, NO_MESSAGE, STORE_FWDACK, WB_REQ};

// A write-back: the words stored, dirty and the tile's mark set.
fn write_back_stored(home: HomeNumbers, tile: u64, directory: u64, holders: u64) -> HomeMove
    ensures { result ≡ write_back_stored home tile directory holders }
{
    let after = HomeNumbers {
        valid: VALID,
        dirty: DIRTY,
        directory,
        holders,
        marks: masks::add(home.marks, tile),
        ..home
    };
    HomeMove {
        home: after,
        source: LineSource::OfMessage,
        sends: Sending::Silent,
    }
}

fn write_back(home: HomeNumbers, tile: u64) -> Result<HomeMove, Refusal>
    ensures { result ≡ write_back home tile }
{
    if masks::has(home.marks, tile) {
        return Err(Refusal::Misfit);
    }
    match home.phase {
        PHASE_IDLE if home.directory == DIRECTORY_E && home.holders == tile => {
            Ok(write_back_stored(home, tile, DIRECTORY_I, NONE))
        }
        PHASE_OWNER_FOR_LOAD | PHASE_OWNER_FOR_STORE | PHASE_OWNER_FOR_EVICTION
            if home.holders == tile => {
            Ok(write_back_stored(home, tile, DIRECTORY_E, home.holders))
        }
        _ => Err(Refusal::Misfit),
    }
}

// Dirty, and where the line's words come from, after an ack with this flag: two rules of 01, of any number that a word may hold.
fn ack_dirty(flag: u64, dirty: u64) -> u64
    ensures { result ≡ ack_dirty flag dirty }
{
    if flag == 0 { dirty } else { DIRTY }
}

fn ack_source(flag: u64) -> LineSource
    ensures { result ≡ ack_source flag }
{
    if flag == 0 {
        LineSource::Stay
    } else {
        LineSource::OfMessage
    }
}

fn owner_shares(home: HomeNumbers, owner: u64, requester: u64, flag: u64) -> HomeMove
    ensures { result ≡ owner_shares home owner requester flag }
{
    let dirty = ack_dirty(flag, home.dirty);
    home.grant_shared(dirty, ack_source(flag), masks::add(NONE, owner), requester)
}

fn load_ack(home: HomeNumbers, tile: u64, state: u64, flag: u64) -> Result<HomeMove, Refusal>
    ensures { result ≡ load_ack home tile state flag }
{
    if home.phase != PHASE_OWNER_FOR_LOAD || home.holders != tile {
        Err(Refusal::Misfit)
    } else if state == STATE_I {
        Ok(home.grant_owner(
            home.dirty,
            LineSource::Stay,
            STATE_E,
            NO_MISS,
            home.requester,
        ))
    } else {
        Ok(owner_shares(home, home.holders, home.requester, flag))
    }
}

fn store_ack(home: HomeNumbers, tile: u64, flag: u64) -> Result<HomeMove, Refusal>
    ensures { result ≡ store_ack home tile flag }
{
    if home.holders != tile {
        return Err(Refusal::Misfit);
    }
    let dirty = ack_dirty(flag, home.dirty);
    let source = ack_source(flag);
    match home.phase {
        PHASE_OWNER_FOR_STORE => Ok(home.grant_owner(
            dirty,
            source,
            STATE_M,
            NO_MISS,
            home.requester,
        )),
        PHASE_OWNER_FOR_EVICTION => home.leave(dirty, source),
        _ => Err(Refusal::Misfit),
    }
}

// No tile is owed any more.
fn cleared(home: HomeNumbers) -> Result<HomeMove, Refusal>
    ensures { result ≡ cleared home }
{
    if home.phase == PHASE_ACKS_FOR_STORE {
        Ok(home.grant_owner(
            home.dirty,
            LineSource::Stay,
            STATE_M,
            NO_MISS,
            home.requester,
        ))
    } else {
        home.leave(home.dirty, LineSource::Stay)
    }
}

// The tiles `owed` are left.
fn one_less(home: HomeNumbers, owed: u64) -> Result<HomeMove, Refusal>
    ensures { result ≡ one_less home owed }
{
    if owed == NONE {
        cleared(home)
    } else {
        Ok(HomeMove {
            home: HomeNumbers { owed, ..home },
            source: LineSource::Stay,
            sends: Sending::Silent,
        })
    }
}

fn owed_ack(home: HomeNumbers, tile: u64) -> Result<HomeMove, Refusal>
    ensures { result ≡ owed_ack home tile }
{
    if masks::has(home.owed, tile) {
        one_less(home, masks::del(home.owed, tile))
    } else {
        Err(Refusal::Misfit)
    }
}

fn inv_ack(home: HomeNumbers, tile: u64) -> Result<HomeMove, Refusal>
    ensures { result ≡ inv_ack home tile }
{
    match home.phase {
        PHASE_ACKS_FOR_STORE | PHASE_ACKS_FOR_EVICTION => owed_ack(home, tile),
        _ => Err(Refusal::Misfit),
    }
}

// Delivery from the tile, whose NoC3 front is of this type, with its state and flag.
#[tactic(auto, unfolding(crate::specs::Moves::accept_reply))]
pub fn accept_reply(
    home: HomeNumbers,
    tile: u64,
    message: u64,
    state: u64,
    flag: u64,
) -> Result<HomeMove, Refusal>
    ensures { result ≡ accept_reply home tile message state flag }
{
    match message {
        NO_MESSAGE => Err(Refusal::NothingThere),
        WB_REQ => write_back(home, tile),
        LOAD_FWDACK => load_ack(home, tile, state, flag),
        STORE_FWDACK => store_ack(home, tile, flag),
        _ => inv_ack(home, tile),
    }
}
