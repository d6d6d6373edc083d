// Reads the front message of lent flits, and the message at a place of them.
ghost use Rattle.std.specs.Prelude.{◌≡◌, get_or, drop};
ghost use Rattle.flit_rules.specs.Reading.{told_read, read_of};

use flit_fields::places;
use flit_rules::Read;
use numbers::refusals::Refusal;

// The flit at a place, 0 past the end. Named because it stands three times; one for bytes and words alike would be no shorter than its one
// expression, so job_format, messages and program_io have their own.
fn flit_at(flits: &[u64], at: usize) -> u64
    ensures { result ≡ get_or flits.now at 0 }
{
    flits.get(at).copied().unwrap_or(0)
}

// The flits from a place on, of which there are none past the end.
pub fn tail(flits: &[u64], at: usize) -> &[u64]
    ensures { result.now ≡ drop at flits.now }
{
    flits.get(at..).unwrap_or(&[])
}

// Reads the front message.
pub fn read(flits: &[u64]) -> Result<Read, Refusal>
    ensures { told_read result ≡ read_of flits.now }
{
    let flit1 = flit_at(flits, 0);
    let row = flit_table::type_row(bits::cut(flit1, places::OPCODE, places::OPCODE_BITS));
    let (flit2, flit3) = if row.three {
        (flit_at(flits, 1), flit_at(flits, 2))
    } else {
        (0, 0)
    };
    let header = flit_fields::header_of(flit1, flit2, flit3);
    crate::refusal::check_front(row, header, flits.len() as u64, flit1, flit2, flit3)?;
    let used = bits::cut(flit1, places::LENGTH, places::LENGTH_BITS) + 1;
    let start = row.extra() + 1;
    Ok(Read {
        header,
        used: used as usize,
        start: start as usize,
    })
}

// Reads the front message of the flits from a place on.
pub fn read_at(flits: &[u64], at: usize) -> Result<Read, Refusal>
    ensures { told_read result ≡ read_of (drop at flits.now) }
{
    read(tail(flits, at))
}
