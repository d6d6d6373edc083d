// The table by type number: each entry is the row that 01's lines give that type.
ghost use Rattle.std.specs.Prelude.{◌≡◌};
ghost use Rattle.flit_rules.specs.Table.{row_of};
ghost use Rattle.flit_rules.specs.Columns.{row_of_entry};

use numbers::types::{
    DATA_ACK, INV_FWD, INV_FWDACK, LOAD_FWD, LOAD_FWDACK, LOAD_MEM, LOAD_MEM_ACK, LOAD_REQ,
    NODATA_ACK, STORE_FWD, STORE_FWDACK, STORE_MEM, STORE_MEM_ACK, STORE_REQ, WB_REQ, WBGUARD_REQ,
};

// An entry is a number with a hexadecimal digit for each column, in the order of `TypeRow`:
//   network, three, short, long; least, most, vector, icache; line, options, low, full; high, miss, address54, last.
// One number by one `match` is a load from memory that is laid out once; an array of rows would be laid on the stack whole at each use, and
// a match of rows is a jump by type (docs/DECISIONS.md, Flits: both were tried, and were slower).
#[tactic(auto, unfolding(flit_rules::specs::Table::row_of, flit_rules::specs::Columns::row_of_entry))]
pub fn entry(opcode: u64) -> u64
    ensures { row_of_entry result ≡ row_of opcode }
{
    match opcode {
        STORE_REQ => 0x1122_0700_0000_0000,
        WB_REQ => 0x31aa_7700_1000_0000,
        WBGUARD_REQ => 0x1122_0000_1000_0000,
        LOAD_FWD => 0x2122_00f0_1000_0000,
        STORE_FWD => 0x2122_00f0_1000_0000,
        INV_FWD => 0x2122_00f0_1000_0000,
        LOAD_MEM => 0x2122_7700_1000_0000,
        STORE_MEM => 0x21aa_7700_1000_0000,
        LOAD_FWDACK => 0x3008_0000_0101_1001,
        STORE_FWDACK => 0x3008_0000_0100_0001,
        INV_FWDACK => 0x3000_0000_0100_0001,
        LOAD_MEM_ACK => 0x3088_0000_0000_0000,
        STORE_MEM_ACK => 0x3000_0000_0000_0000,
        NODATA_ACK => 0x2000_0000_0100_3130,
        DATA_ACK => 0x2088_0000_0111_3130,
        LOAD_REQ => 0x1122_0701_0000_0000,
        _ => 0,
    }
}
