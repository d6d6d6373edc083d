// The calls at the home, by their numbers.
ghost use Rattle.std.specs.Prelude.{◌≡◌};
ghost use Rattle.protocol.specs.Parts.{taking, from_tile, memory_step, memory_ack, home_eviction};
ghost use Rattle.calls.specs.Numbered.{call_at_home};

use numbers::tags::{
    TAG_FROM_TILE, TAG_HOME_EVICTION, TAG_MEMORY_ACK, TAG_MEMORY_STEP, TAG_TAKING,
};

// A tag and no enum, as a call at a tile (tile_calls) has one: `bench::at_home`, which is given its parts, takes a tag.
// The tag (taking, delivery from a tile, memory step, memory ack, else home eviction), and the tile where the call names one.
#[derive(Clone, Copy)]
pub struct HomeCall {
    pub tag: u64,
    pub tile: u64,
}

pub fn taking() -> HomeCall
    ensures { call_at_home result ≡ taking }
{
    HomeCall {
        tag: TAG_TAKING,
        tile: 0,
    }
}

pub fn from_tile(tile: u64) -> HomeCall
    ensures { call_at_home result ≡ from_tile tile }
{
    HomeCall {
        tag: TAG_FROM_TILE,
        tile,
    }
}

pub fn memory_step() -> HomeCall
    ensures { call_at_home result ≡ memory_step }
{
    HomeCall {
        tag: TAG_MEMORY_STEP,
        tile: 0,
    }
}

pub fn memory_ack() -> HomeCall
    ensures { call_at_home result ≡ memory_ack }
{
    HomeCall {
        tag: TAG_MEMORY_ACK,
        tile: 0,
    }
}

pub fn home_eviction() -> HomeCall
    ensures { call_at_home result ≡ home_eviction }
{
    HomeCall {
        tag: TAG_HOME_EVICTION,
        tile: 0,
    }
}
