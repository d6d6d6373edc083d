// The test of a message's ports.
ghost use Rattle.std.specs.Prelude.{◌≡◌};
ghost use Rattle.flit_rules.specs.Rules.{port_listed, ports_listed};

use flit_rules::{Header, TypeRow};
use numbers::ports::{PORT_EAST, PORT_NORTH, PORT_PROCESSOR, PORT_SOUTH, PORT_WEST};

fn port_listed(port: u64) -> bool
    ensures { result ≡ port_listed port }
{
    matches!(
        port,
        PORT_PROCESSOR | PORT_WEST | PORT_SOUTH | PORT_EAST | PORT_NORTH
    )
}

// 14: the destination's port is listed, and on three header flits the source's.
#[tactic(auto, unfolding(flit_rules::specs::Rules::ports_listed))]
pub fn ports_listed(row: TypeRow, header: Header) -> bool
    ensures { result ≡ ports_listed row header }
{
    port_listed(header.to.port) && (!row.three || port_listed(header.from.port))
}
