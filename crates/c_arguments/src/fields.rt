// The fields of a message out of lent words.
ghost use Rattle.std.specs.Prelude.{◌≡◌};
ghost use Rattle.c_arguments.specs.Arguments.{fields_from};

pub use flits::FIELDS;
use flits::Header;

// Places of the fields for C, in the order of `Header`.
pub const FIELD_TYPE: usize = 0;

pub const FIELD_TAG: usize = 1;

pub const FIELD_TO_CHIP: usize = 2;

pub const FIELD_TO_X: usize = 3;

pub const FIELD_TO_Y: usize = 4;

pub const FIELD_TO_PORT: usize = 5;

pub const FIELD_STATE: usize = 6;

pub const FIELD_MISS: usize = 7;

pub const FIELD_ADDRESS_5_4: usize = 8;

pub const FIELD_LAST: usize = 9;

pub const FIELD_ADDRESS: usize = 10;

pub const FIELD_VECTOR: usize = 11;

pub const FIELD_ICACHE: usize = 12;

pub const FIELD_SIZE: usize = 13;

pub const FIELD_FROM_CHIP: usize = 14;

pub const FIELD_FROM_X: usize = 15;

pub const FIELD_FROM_Y: usize = 16;

pub const FIELD_FROM_PORT: usize = 17;

// By its own name, as the definition.
pub fn fields_from(fields: &[u64; FIELDS]) -> Header
    ensures { result ≡ fields_from fields.now }
{
    Header::from([
        fields[FIELD_TYPE],
        fields[FIELD_TAG],
        fields[FIELD_TO_CHIP],
        fields[FIELD_TO_X],
        fields[FIELD_TO_Y],
        fields[FIELD_TO_PORT],
        fields[FIELD_STATE],
        fields[FIELD_MISS],
        fields[FIELD_ADDRESS_5_4],
        fields[FIELD_LAST],
        fields[FIELD_ADDRESS],
        fields[FIELD_VECTOR],
        fields[FIELD_ICACHE],
        fields[FIELD_SIZE],
        fields[FIELD_FROM_CHIP],
        fields[FIELD_FROM_X],
        fields[FIELD_FROM_Y],
        fields[FIELD_FROM_PORT],
    ])
}
