// The fields of the header flits, cut out of them.
ghost use Rattle.std.specs.Prelude.{◌≡◌};
ghost use Rattle.flit_rules.specs.Words.{node_of, header_of_flits};

use crate::places;
use flit_rules::{Header, Node};

// The node in the upper bits of a flit.
fn node_of(flit: u64) -> Node
    ensures { result ≡ node_of flit }
{
    Node {
        chip: bits::cut(flit, places::CHIP, places::CHIP_BITS),
        x: bits::cut(flit, places::X, places::X_BITS),
        y: bits::cut(flit, places::Y, places::Y_BITS),
        port: bits::cut(flit, places::PORT, places::PORT_BITS),
    }
}

// The fields of three header flits.
#[tactic(auto, unfolding(flit_rules::specs::Words::header_of_flits))]
pub fn header_of(flit1: u64, flit2: u64, flit3: u64) -> Header
    ensures { result ≡ header_of_flits flit1 flit2 flit3 }
{
    Header {
        opcode: bits::cut(flit1, places::OPCODE, places::OPCODE_BITS),
        tag: bits::cut(flit1, places::TAG, places::TAG_BITS),
        to: node_of(flit1),
        state: bits::cut(flit1, places::STATE, places::STATE_BITS),
        miss: bits::cut(flit1, places::MISS, places::MISS_BITS),
        address54: bits::cut(flit1, places::ADDRESS54, places::ADDRESS54_BITS),
        last: bits::cut(flit1, places::LAST, places::LAST_BITS),
        address: bits::cut(flit2, places::ADDRESS, places::ADDRESS_BITS),
        vector: bits::cut(flit2, places::VECTOR, places::VECTOR_BITS),
        icache: bits::cut(flit2, places::ICACHE, places::ICACHE_BITS),
        size: bits::cut(flit2, places::SIZE, places::SIZE_BITS),
        from: node_of(flit3),
    }
}
