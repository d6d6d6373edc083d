// What a call is refused for (01, 'Refusal numbers' and 'Jobs'), with the paper's number, in its order.
ghost use Rattle.std.specs.Prelude.{◌≡◌};
ghost use Rattle.numbers.specs.Refusals.{refusal_number};

// the number of what is not refused
pub const ACCEPTED: u64 = 0;

#[derive(Clone, Copy, Debug, PartialEq, Eq)]
pub enum Refusal {
    // ---- the bench
    // bench malformed, or lent words fewer than T tiles need
    Malformed = 1,
    // tile number T or above; tile count not 1 to 64
    NoTile = 2,
    // word 8 or above
    NoWord = 3,
    // load or store at a tile that waits
    TileWaits = 4,
    // tile in I, or home holds no line: nothing to evict
    NoLine = 5,
    // home not idle (taking, home eviction)
    NotIdle = 6,
    // queue empty, or no tile can be taken
    NothingThere = 7,
    // front message does not fit its receiver
    Misfit = 8,
    // a queue that must take a message holds two
    QueueFull = 9,

    // ---- flits
    // no flit at all
    NoFlit = 10,
    // type not in the table
    UnknownType = 11,
    // length not of this type; on writing, data count wrong
    WrongLength = 12,
    // fewer flits than the length says
    FlitsMissing = 13,
    // port not listed
    UnknownPort = 14,
    // reserved bit set
    ReservedSet = 15,
    // field too wide or not allowed for its type
    BadField = 16,
    // place for writing outside the buffer, or too little room there
    NoRoom = 17,

    // ---- jobs
    // cut short in the head or in the value
    JobCut = 20,
    // tag
    JobTag = 21,
    // length
    JobLength = 22,
    // wrong place, or header field missing
    JobPlace = 23,
    // tile count or line address
    JobValue = 24,
    // too long
    JobTooLong = 25,
}

// The paper's number.
impl From<Refusal> for u64 {
    ghost from_gives = { λ x number. number ≡ refusal_number x };

    fn from(refusal: Refusal) -> u64 {
        refusal as u64
    }
}
