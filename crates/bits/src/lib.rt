// Words of 64 bits: shifts of any length, and fields by place and width. specs/Field says what a field is; its laws are in
// proofs/FieldLaws. Every call has an answer for every input: what a word cannot hold is 0 or is left as it is, as the definitions say.
#![tactic(auto)]

ghost use Rattle.std.specs.Prelude.{◌≡◌, ◌*◌, ◌/◌, ◌%◌, ◌^◌};
ghost use Rattle.bits.specs.Field.{word_bits, cut, put64};

// bits of a word
pub const WORD_BITS: u64 = 64;

// The word moved down by some places. Past the word's end nothing is left.
#[tactic(auto, using(crate::proofs::WordLaws::shr_past))]
pub fn shr(word: u64, places: u64) -> u64
    ensures { result ≡ word / 2 ^ places }
{
    if places < WORD_BITS {
        word >> places
    } else {
        0
    }
}

// The word moved up by some places, of which 64 bits stay.
#[tactic(auto, using(crate::proofs::WordLaws::shl_past))]
fn shl(word: u64, places: u64) -> u64
    ensures { result ≡ word * 2 ^ places % 2 ^ word_bits }
{
    if places < WORD_BITS {
        word << places
    } else {
        0
    }
}

// The lowest bits of the word, `width` of them.
#[tactic(auto, using(crate::proofs::WordLaws::one_shl_pos, crate::proofs::WordLaws::and_ones, crate::proofs::WordLaws::low_past))]
pub fn low(word: u64, width: u64) -> u64
    ensures { result ≡ word % 2 ^ width }
{
    if width < WORD_BITS {
        word & ((1 << width) - 1)
    } else {
        word
    }
}

// The field of `width` bits of the word from `place` on.
pub fn cut(word: u64, place: u64, width: u64) -> u64
    ensures { result ≡ cut word place width }
{
    low(shr(word, place), width)
}

// The word with the field of `width` bits from `place` on set to a value. A field that does not lie inside the word is not set.
#[tactic(auto, using(crate::proofs::FieldLaws::put_word, crate::proofs::FieldLaws::put_none))]
pub fn put(word: u64, place: u64, width: u64, value: u64) -> u64
    ensures { result ≡ put64 word place width value }
{
    if place > WORD_BITS || width > WORD_BITS - place {
        return word;
    }
    let end = place + width;
    let above = shl(shr(word, end), end);
    let field = shl(low(value, width), place);
    above | (field | low(word, place))
}
