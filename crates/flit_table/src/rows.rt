// The row of a type, from its entry in the table.
ghost use Rattle.std.specs.Prelude.{◌≡◌, ◌<◌};
ghost use Rattle.flit_rules.specs.Table.{row_of};
ghost use Rattle.flit_rules.specs.Columns.{digit, row_of_entry};

use flit_rules::TypeRow;

// The hexadecimal digit of an entry at a place, from the lowest up.
fn digit(entry: u64, place: u32) -> u64
    requires { place < 16 }
    ensures { result ≡ digit entry place }
{
    (entry >> (4 * place)) % 16
}

// The row that an entry says. No From<u64> for TypeRow: of all numbers only the entries of the table say a row.
#[tactic(auto, unfolding(flit_rules::specs::Columns::row_of_entry))]
fn row_of_entry(entry: u64) -> TypeRow
    ensures { result ≡ row_of_entry entry }
{
    TypeRow {
        network: digit(entry, 15),
        three: digit(entry, 14) == 1,
        short: digit(entry, 13),
        long: digit(entry, 12),
        least: digit(entry, 11),
        most: digit(entry, 10),
        vector: digit(entry, 9),
        icache: digit(entry, 8),
        line: digit(entry, 7) == 1,
        options: digit(entry, 6) == 1,
        low: digit(entry, 5),
        full: digit(entry, 4),
        high: digit(entry, 3),
        miss: digit(entry, 2),
        address54: digit(entry, 1),
        last: digit(entry, 0),
    }
}

// The row of a type, of any number. Inline, as fields_allowed of flit_checks.
#[inline(always)]
pub fn type_row(opcode: u64) -> TypeRow
    ensures { result ≡ row_of opcode }
{
    row_of_entry(crate::entries::entry(opcode))
}

// The network that carries a type: 1 to 3; 0 where the type is not in the table.
pub fn network(opcode: u64) -> u64
    ensures { result ≡ (row_of opcode).network }
{
    type_row(opcode).network
}
