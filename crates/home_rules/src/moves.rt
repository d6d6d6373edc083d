// The home's moves: its numbers after a step, and what the step sends. A move is decided on numbers alone; crate home_words makes it, on
// the words of the bench.
ghost use Rattle.std.specs.Prelude.{◌≡◌};
ghost use Rattle.home_rules.specs.Moves.{kind_of, queues_of, tiles_of, with_taken, memory_move, grant_owner, grant_shared, ask_owner, invalidate, dropped, leave, grant_state};

use layout::codes::{DIRECTORY_E, DIRECTORY_I, DIRECTORY_S, PHASE_IDLE, PHASE_STORING};
use numbers::kinds::Kind;
use numbers::queues::Queues;
use numbers::refusals::Refusal;
use numbers::states::{STATE_E, STATE_I, STATE_M, STATE_S};
use numbers::types::{DATA_ACK, INV_FWD, LOAD_REQ, NO_MESSAGE, STORE_MEM};

// Flags and empty places of the home's numbers. They, phases, directories, states and message types are the words' own numbers: a step is
// proved for words of any numbers, and an enum would need an arm for those that name nothing.
pub const NOT_VALID: u64 = 0;

pub const VALID: u64 = 1;

pub const CLEAN: u64 = 0;

pub const DIRTY: u64 = 1;

// no tile, as a number or as a mask
pub const NONE: u64 = 0;

pub const NO_MISS: u64 = 0;

pub const MISS: u64 = 1;

// Where the line's words come from: they stay, are all 0, or are those of the message that is answered.
#[derive(Clone, Copy, Debug, PartialEq, Eq)]
pub enum LineSource {
    Stay,
    Clear,
    OfMessage,
}

// The numbers by which the home decides: its phase; valid, dirty, directory and holders (sharers' mask or owner) of the line; last taken,
// marks, requester and owed tiles; and the type of the second message to memory (none: there is room for it).
#[derive(Clone, Copy)]
pub struct HomeNumbers {
    pub phase: u64,
    pub valid: u64,
    pub dirty: u64,
    pub directory: u64,
    pub holders: u64,
    pub last: u64,
    pub marks: u64,
    pub requester: u64,
    pub owed: u64,
    pub second: u64,
}

// What a step of the home sends.
#[derive(Clone, Copy, Debug, PartialEq, Eq)]
pub enum Sending {
    Silent,
    // a message of this type to memory; STORE_MEM has the line's words
    Memory(u64),
    // a message of this type, state and L2 miss for every tile of the mask `to`; DATA_ACK has the line's words
    Tiles {
        to: u64,
        message: u64,
        state: u64,
        miss: u64,
    },
}

impl Sending {
    pub fn kind(self) -> Kind
        ensures { result ≡ kind_of self }
    {
        match self {
            Sending::Silent => Kind::Other,
            _ => Kind::Sent,
        }
    }

    pub fn queues(self) -> Queues
        ensures { result ≡ queues_of self }
    {
        match self {
            Sending::Silent => Queues::Nothing,
            Sending::Memory(_) => Queues::ToMemory,
            Sending::Tiles { .. } => Queues::Noc2,
        }
    }

    // The mask of the tiles that get a message.
    pub fn tiles(self) -> u64
        ensures { result ≡ tiles_of self }
    {
        match self {
            Sending::Tiles { to, .. } => to,
            _ => NONE,
        }
    }
}

// What a step of the home comes to: the numbers after it, where the line's words come from, and what it sends.
#[derive(Clone, Copy)]
pub struct HomeMove {
    pub home: HomeNumbers,
    pub source: LineSource,
    pub sends: Sending,
}

impl HomeNumbers {
    // Another last taken and other marks.
    pub fn taken(self, last: u64, marks: u64) -> HomeNumbers
        ensures { result ≡ with_taken self last marks }
    {
        HomeNumbers {
            last,
            marks,
            ..self
        }
    }

    // `after` with a message of this type to memory; refused where, before the step, that queue holds two.
    pub fn to_memory(
        self,
        after: HomeNumbers,
        source: LineSource,
        outgoing: u64,
    ) -> Result<HomeMove, Refusal>
        ensures { result ≡ memory_move self after source outgoing }
    {
        if self.second != NO_MESSAGE {
            return Err(Refusal::QueueFull);
        }
        Ok(HomeMove {
            home: after,
            source,
            sends: Sending::Memory(outgoing),
        })
    }

    // DATA_ACK in this state to the tile, where no other has the line: directory E with that owner.
    pub fn grant_owner(
        self,
        dirty: u64,
        source: LineSource,
        state: u64,
        miss: u64,
        tile: u64,
    ) -> HomeMove
        ensures { result ≡ grant_owner self dirty source state miss tile }
    {
        let owned = HomeNumbers {
            phase: PHASE_IDLE,
            valid: VALID,
            dirty,
            directory: DIRECTORY_E,
            holders: tile,
            requester: NONE,
            owed: NONE,
            ..self
        };
        HomeMove {
            home: owned,
            source,
            sends: Sending::Tiles {
                to: masks::add(NONE, tile),
                message: DATA_ACK,
                state,
                miss,
            },
        }
    }

    // DATA_ACK in S to the tile, which joins the sharers.
    pub fn grant_shared(self, dirty: u64, source: LineSource, sharers: u64, tile: u64) -> HomeMove
        ensures { result ≡ grant_shared self dirty source sharers tile }
    {
        let after = HomeNumbers {
            phase: PHASE_IDLE,
            valid: VALID,
            dirty,
            directory: DIRECTORY_S,
            holders: masks::add(sharers, tile),
            requester: NONE,
            owed: NONE,
            ..self
        };
        HomeMove {
            home: after,
            source,
            sends: Sending::Tiles {
                to: masks::add(NONE, tile),
                message: DATA_ACK,
                state: STATE_S,
                miss: NO_MISS,
            },
        }
    }

    // A forward to the owner, in this phase, on behalf of the requester.
    pub fn ask_owner(self, owner: u64, phase: u64, requester: u64, message: u64) -> HomeMove
        ensures { result ≡ ask_owner self owner phase requester message }
    {
        let after = HomeNumbers {
            phase,
            valid: VALID,
            directory: DIRECTORY_E,
            holders: owner,
            requester,
            owed: NONE,
            ..self
        };
        HomeMove {
            home: after,
            source: LineSource::Stay,
            sends: Sending::Tiles {
                to: masks::add(NONE, owner),
                message,
                state: STATE_I,
                miss: NO_MISS,
            },
        }
    }

    // INV_FWD to the tiles owed, in this phase, on behalf of the requester. The mask of sharers stays.
    pub fn invalidate(self, sharers: u64, owed: u64, phase: u64, requester: u64) -> HomeMove
        ensures { result ≡ invalidate self sharers owed phase requester }
    {
        let after = HomeNumbers {
            phase,
            valid: VALID,
            directory: DIRECTORY_S,
            holders: sharers,
            requester,
            owed,
            ..self
        };
        HomeMove {
            home: after,
            source: LineSource::Stay,
            sends: Sending::Tiles {
                to: owed,
                message: INV_FWD,
                state: STATE_I,
                miss: NO_MISS,
            },
        }
    }

    // The line is dropped, and the home idle.
    pub fn dropped(self) -> HomeMove
        ensures { result ≡ dropped self }
    {
        let after = HomeNumbers {
            phase: PHASE_IDLE,
            valid: NOT_VALID,
            dirty: CLEAN,
            directory: DIRECTORY_I,
            holders: NONE,
            requester: NONE,
            owed: NONE,
            ..self
        };
        HomeMove {
            home: after,
            source: LineSource::Clear,
            sends: Sending::Silent,
        }
    }

    // The line leaves: dropped if clean, else STORE_MEM.
    pub fn leave(self, dirty: u64, source: LineSource) -> Result<HomeMove, Refusal>
        ensures { result ≡ leave self dirty source }
    {
        if dirty == CLEAN {
            return Ok(self.dropped());
        }
        let after = HomeNumbers {
            phase: PHASE_STORING,
            valid: VALID,
            dirty: DIRTY,
            directory: DIRECTORY_I,
            holders: NONE,
            requester: NONE,
            owed: NONE,
            ..self
        };
        self.to_memory(after, source, STORE_MEM)
    }
}

// What a request of this type is granted where no other tile has the line: E for a load, M for a store.
pub fn grant_state(request: u64) -> u64
    ensures { result ≡ grant_state request }
{
    if request == LOAD_REQ {
        STATE_E
    } else {
        STATE_M
    }
}
