// The lowest refusal of a front message.
ghost use Rattle.std.specs.Prelude.{◌≡◌};
ghost use Rattle.flit_rules.specs.Reading.{lowest, read_refusals, told_refusal};

use flit_fields::places;
use flit_rules::{Header, TypeRow};
use numbers::refusals::Refusal;

// Is a front message with these header flits, of `count` flits in all, refused? No [u64; 3], as in reserved_clear of flit_checks.
pub fn check_front(
    row: TypeRow,
    header: Header,
    count: u64,
    flit1: u64,
    flit2: u64,
    flit3: u64,
) -> Result<(), Refusal>
    ensures { told_refusal result ≡ lowest (read_refusals row header count flit1 flit2 flit3) }
{
    let following = bits::cut(flit1, places::LENGTH, places::LENGTH_BITS);
    // all are asked before the first is answered: asked one by one, they cost more
    let known = flit_checks::in_table(row);
    let long = flit_checks::length_allowed(row, following);
    let ports = flit_checks::ports_listed(row, header);
    let clear = flit_checks::reserved_clear(row, flit1, flit2, flit3);
    let allowed = flit_checks::fields_allowed(row, row.extra() < following, header);
    if count == 0 {
        return Err(Refusal::NoFlit);
    }
    if !known {
        return Err(Refusal::UnknownType);
    }
    if !long {
        return Err(Refusal::WrongLength);
    }
    if following >= count {
        return Err(Refusal::FlitsMissing);
    }
    if !ports {
        return Err(Refusal::UnknownPort);
    }
    if !clear {
        return Err(Refusal::ReservedSet);
    }
    if !allowed {
        return Err(Refusal::BadField);
    }
    Ok(())
}
