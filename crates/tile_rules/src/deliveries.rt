// Delivery to a tile of the front message of its NoC2, decided on its numbers: what each type asks of each state. Every other pair is 8.
ghost use Rattle.std.specs.Prelude.{◌≡◌};
ghost use Rattle.tile_rules.specs.Moves.{reply, load_fwd, store_fwd, inv_fwd, forward, store_fill, load_fill, fill, deliver};

use crate::moves::{TileMove, TileNumbers};
use layout::codes::{WAITS_FOR_LOAD, WAITS_FOR_STORE};
use numbers::refusals::Refusal;
use numbers::states::{STATE_E, STATE_I, STATE_M, STATE_S};
use numbers::types::{
    INV_FWD, INV_FWDACK, LOAD_FWD, LOAD_FWDACK, NO_MESSAGE, STORE_FWD, STORE_FWDACK,
};

// The tile is then in `state`; the ack reports a state, with the line's words or without.
fn reply(state: u64, message: u64, reported: u64, with_line: bool) -> Result<TileMove, Refusal>
    ensures { result ≡ reply state message reported with_line }
{
    Ok(TileMove::Reply {
        state,
        message,
        reported,
        with_line,
    })
}

fn on_load_fwd(tile: TileNumbers) -> Result<TileMove, Refusal>
    ensures { result ≡ load_fwd tile }
{
    match tile.state {
        STATE_I => reply(STATE_I, LOAD_FWDACK, STATE_I, false),
        STATE_S => Err(Refusal::Misfit),
        STATE_E => reply(STATE_S, LOAD_FWDACK, STATE_S, false),
        _ => reply(STATE_S, LOAD_FWDACK, STATE_S, true),
    }
}

fn on_store_fwd(tile: TileNumbers) -> Result<TileMove, Refusal>
    ensures { result ≡ store_fwd tile }
{
    match tile.state {
        STATE_S => Err(Refusal::Misfit),
        STATE_M => reply(STATE_I, STORE_FWDACK, STATE_I, true),
        _ => reply(STATE_I, STORE_FWDACK, STATE_I, false),
    }
}

fn on_inv_fwd(tile: TileNumbers) -> Result<TileMove, Refusal>
    ensures { result ≡ inv_fwd tile }
{
    if tile.state < STATE_E {
        reply(STATE_I, INV_FWDACK, STATE_I, false)
    } else {
        Err(Refusal::Misfit)
    }
}

fn on_forward(tile: TileNumbers) -> Result<TileMove, Refusal>
    ensures { result ≡ forward tile }
{
    match tile.message {
        LOAD_FWD => on_load_fwd(tile),
        STORE_FWD => on_store_fwd(tile),
        _ => on_inv_fwd(tile),
    }
}

// The line comes in for a store.
fn on_store_fill(tile: TileNumbers) -> Result<TileMove, Refusal>
    ensures { result ≡ store_fill tile }
{
    if tile.waits == WAITS_FOR_STORE && tile.state < STATE_E {
        Ok(TileMove::FillStore {
            word: tile.word,
            value: tile.value,
        })
    } else {
        Err(Refusal::Misfit)
    }
}

// The line comes in for a load. Apart from that for a store: one function would take what is waited for, the states and the move, so all of
// it.
fn on_load_fill(tile: TileNumbers) -> Result<TileMove, Refusal>
    ensures { result ≡ load_fill tile }
{
    if tile.waits == WAITS_FOR_LOAD && tile.state == STATE_I {
        Ok(TileMove::FillLoad {
            state: tile.granted,
            word: tile.word,
        })
    } else {
        Err(Refusal::Misfit)
    }
}

fn on_fill(tile: TileNumbers) -> Result<TileMove, Refusal>
    ensures { result ≡ fill tile }
{
    if tile.granted == STATE_M {
        on_store_fill(tile)
    } else {
        on_load_fill(tile)
    }
}

// By type: a forward, else DATA_ACK.
pub fn deliver(tile: TileNumbers) -> Result<TileMove, Refusal>
    ensures { result ≡ deliver tile }
{
    match tile.message {
        NO_MESSAGE => Err(Refusal::NothingThere),
        LOAD_FWD..=INV_FWD => on_forward(tile),
        _ => on_fill(tile),
    }
}
