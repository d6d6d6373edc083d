// Queues (01's ways) by number: the networks of a tile, and the two of the memory.
ghost use Rattle.std.specs.Prelude.{◌≡◌};
ghost use Rattle.numbers.specs.Queues.{queues_number};

// On which queues a call sends its messages.
#[derive(Clone, Copy, Debug, PartialEq, Eq)]
pub enum Queues {
    Nothing = 0,
    Noc1 = 1,
    Noc2 = 2,
    Noc3 = 3,
    ToMemory = 4,
    FromMemory = 5,
    // a write-back and its guard, of one tile: two queues of one answer
    Noc3ThenNoc1 = 6,
}

// The paper's number.
impl From<Queues> for u64 {
    ghost from_gives = { λ x number. number ≡ queues_number x };

    fn from(queues: Queues) -> u64 {
        queues as u64
    }
}

// The numbers alone, for calls that C gives any number to: `messages::message`, `messages::count`, `message_flits::write_message`.
pub const NO_QUEUE: u64 = 0;

pub const NOC1: u64 = 1;

pub const NOC2: u64 = 2;

pub const NOC3: u64 = 3;

pub const TO_MEMORY: u64 = 4;

pub const FROM_MEMORY: u64 = 5;

// a write-back and its guard, of one tile: two queues of one answer
pub const NOC3_THEN_NOC1: u64 = 6;
