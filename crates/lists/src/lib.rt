// Room in a lent buffer, and bytes put into it. specs/Over says what a list is after numbers were written over it from a place on;
// proofs/OverLaws has its laws.
#![tactic(auto)]

ghost use Rattle.std.specs.Prelude.{◌≡◌, ◌+◌, ◌≤◌, ◌∷◌, [], leb, length};
ghost use Rattle.lists.specs.Over.{Put};

// Do `count` elements from place `at` on lie within `size`? No sum here can wrap. (A size and a count, and no
// buffer: some callers have only its length.)
#[tactic(auto, using(crate::proofs::OverLaws::room_test, crate::proofs::OverLaws::past_room))]
pub fn room(size: usize, at: usize, count: usize) -> bool
    ensures { result ≡ leb (at + count) size }
{
    at <= size && count <= size - at
}

// ---- pieces, called only where they fit

#[tactic(auto, using(crate::proofs::Pieces::byte_put))]
pub fn put_byte(buffer: &mut [u8], at: usize, byte: u8) -> usize
    requires { at + 1 ≤ length buffer.old }
    ensures { Put buffer.old buffer.new at result (byte ∷ []) }
{
    buffer[at] = byte;
    at + 1
}

#[tactic(auto, unfolding(crate::specs::Over::over))]
pub fn put_text(buffer: &mut [u8], at: usize, text: &[u8]) -> usize
    requires { at + length text.now ≤ length buffer.old }
    ensures { Put buffer.old buffer.new at result text.now }
{
    buffer[at..at + text.len()].copy_from_slice(text);
    at + text.len()
}
