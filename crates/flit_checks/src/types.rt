// The tests of a message's type and length by its row.
ghost use Rattle.std.specs.Prelude.{◌≡◌};
ghost use Rattle.flit_rules.specs.Rules.{in_table, length_allowed};

use flit_rules::{NO_NETWORK, TypeRow};

// 11: the type is in the table.
pub fn in_table(row: TypeRow) -> bool
    ensures { result ≡ in_table row }
{
    row.network != NO_NETWORK
}

// 12: the length, which counts the flits that follow the first, is one of the type's.
pub fn length_allowed(row: TypeRow, following: u64) -> bool
    ensures { result ≡ length_allowed row following }
{
    following == row.short || following == row.long
}
