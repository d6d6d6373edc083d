// A tile's moves: what its step comes to, by value. Crate tile_words makes the move on the words where the tile's block stands.
ghost use Rattle.std.specs.Prelude.{◌≡◌};
ghost use Rattle.tile_rules.specs.Moves.{move_kind, move_queues, has_room_on, room_for};

use numbers::kinds::Kind;
use numbers::queues::Queues;
use numbers::refusals::Refusal;
use numbers::types::NO_MESSAGE;

// The numbers by which a tile decides: its state; what it waits for, with the word and the value to store; the type of the second message
// on NoC1 (none: there is room); type and state of the front message on NoC2; the type of the second message on NoC3. They are the words'
// own numbers: a step is proved for words of any numbers, and an enum would need an arm for those that name no state.
#[derive(Clone, Copy)]
pub struct TileNumbers {
    pub state: u64,
    pub waits: u64,
    pub word: u64,
    pub value: u64,
    pub noc1: u64,
    pub message: u64,
    pub granted: u64,
    pub noc3: u64,
}

impl TileNumbers {
    // Is there room for a message on each of these queues, as far as they are the tile's own?
    fn has_room_on(self, queues: Queues) -> bool
        ensures { result ≡ has_room_on self queues }
    {
        match queues {
            Queues::Noc1 => self.noc1 == NO_MESSAGE,
            Queues::Noc3 => self.noc3 == NO_MESSAGE,
            Queues::Noc3ThenNoc1 => self.noc3 == NO_MESSAGE && self.noc1 == NO_MESSAGE,
            _ => true,
        }
    }
}

// What a step of a tile comes to where it is not refused.
#[derive(Clone, Copy)]
pub enum TileMove {
    // this word is loaded where it stands
    Read(u64),
    // a request of this type for the word is sent, and the tile waits, with the value to store
    Request {
        message: u64,
        waits: u64,
        word: u64,
        value: u64,
    },
    // the value is stored where the word stands
    Store {
        word: u64,
        value: u64,
    },
    // the line is dropped
    Drop,
    // the line is written back, with its guard
    WriteBack,
    // a forward is answered by an ack of this type and reported state, with the line's words or without; the tile is then in `state`
    Reply {
        state: u64,
        message: u64,
        reported: u64,
        with_line: bool,
    },
    // the line comes in, in this state, and the word is loaded
    FillLoad {
        state: u64,
        word: u64,
    },
    // the line comes in, and the value is stored
    FillStore {
        word: u64,
        value: u64,
    },
}

impl TileMove {
    pub fn kind(self) -> Kind
        ensures { result ≡ move_kind self }
    {
        match self {
            TileMove::Drop => Kind::Other,
            TileMove::Read(_) | TileMove::FillLoad { .. } => Kind::Loaded,
            TileMove::Store { .. } | TileMove::FillStore { .. } => Kind::Stored,
            TileMove::Request { .. } | TileMove::WriteBack | TileMove::Reply { .. } => Kind::Sent,
        }
    }

    // On which queues the move sends.
    pub fn queues(self) -> Queues
        ensures { result ≡ move_queues self }
    {
        match self {
            TileMove::Request { .. } => Queues::Noc1,
            TileMove::WriteBack => Queues::Noc3ThenNoc1,
            TileMove::Reply { .. } => Queues::Noc3,
            _ => Queues::Nothing,
        }
    }

    // Refused, last of all, where a queue that the move sends on is full.
    pub fn check_room(self, numbers: TileNumbers) -> Result<(), Refusal>
        ensures { result ≡ room_for numbers self }
    {
        if numbers.has_room_on(self.queues()) {
            Ok(())
        } else {
            Err(Refusal::QueueFull)
        }
    }
}
