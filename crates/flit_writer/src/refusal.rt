// The lowest refusal of a message to write.
ghost use Rattle.std.specs.Prelude.{◌≡◌, ◌<◌, ◌^◌};
ghost use Rattle.flit_rules.specs.Reading.{lowest, told_refusal};
ghost use Rattle.flit_rules.specs.Writing.{write_refusals};

use flit_rules::{Header, TypeRow};
use numbers::refusals::Refusal;

// Is a message with `count` data words, of which a slice has fewer than 2 ^ 60, refused at a place of a buffer of `room` flits?
// The count alone, since the words are not looked at: the definition `write_refusals` has it so.
pub fn check_message(
    row: TypeRow,
    header: Header,
    count: usize,
    room: usize,
    at: usize,
) -> Result<(), Refusal>
    requires { count < 2 ^ 60 }
    ensures { told_refusal result ≡ lowest (write_refusals row header count room at) }
{
    let following = row.extra() + count as u64;
    // as in check_front of flit_reader
    let known = flit_checks::in_table(row);
    let long = flit_checks::length_allowed(row, following);
    let ports = flit_checks::ports_listed(row, header);
    let allowed = flit_checks::fields_allowed(row, 0 < count, header);
    if !known {
        return Err(Refusal::UnknownType);
    }
    if !long {
        return Err(Refusal::WrongLength);
    }
    if !ports {
        return Err(Refusal::UnknownPort);
    }
    if !allowed {
        return Err(Refusal::BadField);
    }
    if !lists::room(room, at, (following + 1) as usize) {
        return Err(Refusal::NoRoom);
    }
    Ok(())
}
