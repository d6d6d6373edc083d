// The header flits of a message, set field by field from the lowest up.
ghost use Rattle.std.specs.Prelude.{◌≡◌};
ghost use Rattle.flit_rules.specs.Words.{set_node, flit1_of, flit2_of, flit3_of};

use crate::places;
use flit_rules::{Header, Node};

// A flit with a node set into its upper bits.
fn set_node(node: Node, flit: u64) -> u64
    ensures { result ≡ set_node node flit }
{
    let flit = bits::put(flit, places::PORT, places::PORT_BITS, node.port);
    let flit = bits::put(flit, places::Y, places::Y_BITS, node.y);
    let flit = bits::put(flit, places::X, places::X_BITS, node.x);
    bits::put(flit, places::CHIP, places::CHIP_BITS, node.chip)
}

// Of a message in which so many flits follow the first: 01's length.
#[tactic(auto, unfolding(flit_rules::specs::Words::flit1_of))]
pub fn flit1(header: Header, following: u64) -> u64
    ensures { result ≡ flit1_of header following }
{
    let flit = bits::put(0, places::LAST, places::LAST_BITS, header.last);
    let flit = bits::put(
        flit,
        places::ADDRESS54,
        places::ADDRESS54_BITS,
        header.address54,
    );
    let flit = bits::put(flit, places::MISS, places::MISS_BITS, header.miss);
    let flit = bits::put(flit, places::STATE, places::STATE_BITS, header.state);
    let flit = bits::put(flit, places::TAG, places::TAG_BITS, header.tag);
    let flit = bits::put(flit, places::OPCODE, places::OPCODE_BITS, header.opcode);
    let flit = bits::put(flit, places::LENGTH, places::LENGTH_BITS, following);
    set_node(header.to, flit)
}

#[tactic(auto, unfolding(flit_rules::specs::Words::flit2_of))]
pub fn flit2(header: Header) -> u64
    ensures { result ≡ flit2_of header }
{
    let flit = bits::put(0, places::SIZE, places::SIZE_BITS, header.size);
    let flit = bits::put(flit, places::ICACHE, places::ICACHE_BITS, header.icache);
    let flit = bits::put(flit, places::VECTOR, places::VECTOR_BITS, header.vector);
    bits::put(flit, places::ADDRESS, places::ADDRESS_BITS, header.address)
}

#[tactic(auto, unfolding(flit_rules::specs::Words::flit3_of))]
pub fn flit3(header: Header) -> u64
    ensures { result ≡ flit3_of header }
{
    set_node(header.from, 0)
}
