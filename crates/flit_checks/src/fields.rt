// 16: the tests of the fields of a message.
ghost use Rattle.std.specs.Prelude.{◌≡◌, ◌&&◌, ◌||◌, not, eqb, leb};
ghost use Rattle.flit_rules.specs.Words.{chip_bits, x_bits, y_bits};
ghost use Rattle.flit_rules.specs.Rules.{field_fits, fields_narrow, absent_clear, fields_suit, fields_allowed};

use flit_fields::places;
use flit_rules::{Header, Node, TypeRow};

// low bits of an address that are 0 in a line address
const LINE_OFFSET_BITS: u64 = 6;

// No coordinate of a node is too wide.
fn node_narrow(node: Node) -> bool
    ensures { result ≡ (field_fits chip_bits node.chip && field_fits x_bits node.x && field_fits y_bits node.y) }
{
    node.chip < places::CHIP_LIMIT && node.x < places::X_LIMIT && node.y < places::Y_LIMIT
}

// No field is too wide.
fn fields_narrow(header: Header) -> bool
    ensures { result ≡ fields_narrow header }
{
    node_narrow(header.to)
        && header.tag < places::TAG_LIMIT
        && header.state < places::STATE_LIMIT
        && header.miss < places::MISS_LIMIT
        && header.address54 < places::ADDRESS54_LIMIT
        && header.last < places::LAST_LIMIT
        && header.address < places::ADDRESS_LIMIT
        && header.vector < places::VECTOR_LIMIT
        && header.icache < places::ICACHE_LIMIT
        && header.size < places::SIZE_LIMIT
        && node_narrow(header.from)
}

// A field that the type does not have is 0.
fn absent_clear(row: TypeRow, header: Header) -> bool
    ensures { result ≡ absent_clear row header }
{
    row.three
        || (header.address == 0
            && header.from.chip == 0
            && header.from.x == 0
            && header.from.y == 0
            && header.from.port == 0)
}

// The options are allowed for the type.
fn options_suit(row: TypeRow, carries: bool, header: Header) -> bool
    ensures { result ≡ (leb row.low header.state
        && (not carries || leb row.full header.state)
        && leb header.state row.high
        && leb header.miss row.miss
        && leb header.address54 row.address54
        && eqb header.last row.last) }
{
    row.low <= header.state
        && (!carries || row.full <= header.state)
        && header.state <= row.high
        && header.miss <= row.miss
        && header.address54 <= row.address54
        && header.last == row.last
}

// Each field is allowed for its type; `carries` says that there is data.
fn fields_suit(row: TypeRow, carries: bool, header: Header) -> bool
    ensures { result ≡ fields_suit row carries header }
{
    row.least <= header.size
        && header.size <= row.most
        && header.vector == row.vector
        && header.icache <= row.icache
        && (!row.line || bits::cut(header.address, 0, LINE_OFFSET_BITS) == 0)
        && options_suit(row, carries, header)
}

// Inline: where it is called, the row and the header are stored for it and loaded again.
#[inline(always)]
#[tactic(auto, unfolding(flit_rules::specs::Rules::fields_allowed))]
pub fn fields_allowed(row: TypeRow, carries: bool, header: Header) -> bool
    ensures { result ≡ fields_allowed row carries header }
{
    fields_narrow(header) && absent_clear(row, header) && fields_suit(row, carries, header)
}
