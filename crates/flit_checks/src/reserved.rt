// The test of the reserved bits.
ghost use Rattle.std.specs.Prelude.{◌≡◌};
ghost use Rattle.flit_rules.specs.Rules.{reserved_clear};

use flit_fields::places;
use flit_rules::TypeRow;

// 15: the options of a type that has none, and the reserved bits of flits 2 and 3, are 0. No [u64; 3]: the definition takes flits 1 to 3
// by 01's numbers, and an array's places would be one below.
#[tactic(auto, unfolding(flit_rules::specs::Rules::reserved_clear))]
pub fn reserved_clear(row: TypeRow, flit1: u64, flit2: u64, flit3: u64) -> bool
    ensures { result ≡ reserved_clear row flit1 flit2 flit3 }
{
    (row.options || bits::cut(flit1, places::OPTIONS, places::OPTIONS_BITS) == 0)
        && bits::cut(flit2, places::RESERVED2, places::RESERVED2_BITS) == 0
        && bits::cut(flit3, places::RESERVED3, places::RESERVED3_BITS) == 0
}
