// Kinds of an answer (01: 'kind 1 with the loaded word, 2 store written, 3 message sent, 0 otherwise').
ghost use Rattle.std.specs.Prelude.{◌≡◌};
ghost use Rattle.numbers.specs.Kinds.{kind_number};

#[derive(Clone, Copy, Debug, PartialEq, Eq)]
pub enum Kind {
    Other = 0,
    Loaded = 1,
    Stored = 2,
    Sent = 3,
}

// The paper's number.
impl From<Kind> for u64 {
    ghost from_gives = { λ x number. number ≡ kind_number x };

    fn from(kind: Kind) -> u64 {
        kind as u64
    }
}
