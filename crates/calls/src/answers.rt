// What a call on a bench answers: its kind and value and the messages that it sent, or what it is refused for. specs/Answers tells it in
// the paper's numbers.
ghost use Rattle.std.specs.Prelude.{◌≡◌};
ghost use Rattle.calls.specs.Answers.{tiles_of, told};

use numbers::kinds::Kind;
use numbers::queues::Queues;
use numbers::refusals::{ACCEPTED, Refusal};

// An accepted call: its kind and value, on which queues it sent messages, and the tiles whose queues they are, as a mask.
#[derive(Clone, Copy, Debug, PartialEq, Eq)]
pub struct Accepted {
    pub kind: Kind,
    pub value: u64,
    pub sent: Queues,
    pub tiles: u64,
}

pub type Answer = Result<Accepted, Refusal>;

impl Accepted {
    // Of a call that sent on the queues of one tile alone, if at all.
    pub fn at_tile(tile: u64, kind: Kind, value: u64, sent: Queues) -> Accepted
        ensures { result ≡ record { kind = kind; value = value; sent = sent; tiles = tiles_of sent tile } }
    {
        let tiles = match sent {
            Queues::Nothing => 0,
            _ => masks::add(0, tile),
        };
        Accepted {
            kind,
            value,
            sent,
            tiles,
        }
    }
}

// An answer in the paper's numbers: refusal number 0 where the call was accepted, else the number alone.
pub fn told(answer: Answer) -> protocol::Answer
    ensures { result ≡ told answer }
{
    match answer {
        Ok(accepted) => protocol::Answer {
            refusal: ACCEPTED,
            kind: u64::from(accepted.kind),
            value: accepted.value,
            sent: u64::from(accepted.sent),
            tiles: accepted.tiles,
        },
        Err(refusal) => protocol::Answer {
            refusal: u64::from(refusal),
            kind: u64::from(Kind::Other),
            value: 0,
            sent: u64::from(Queues::Nothing),
            tiles: 0,
        },
    }
}
