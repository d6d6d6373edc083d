// The flits of a message, written at the front of a part of a buffer. `following` is 01's length: the flits that follow the first.
ghost use Rattle.std.specs.Prelude.{◌≡◌, ◌++◌, ◌+◌, ◌≤◌, ◌<◌, length, drop};
ghost use Rattle.flit_rules.specs.Table.{header_extra};
ghost use Rattle.flit_rules.specs.Writing.{header_flits};

use flit_rules::{Header, TypeRow};

// The header flits.
fn write_header(part: &mut [u64], row: TypeRow, header: Header, following: u64)
    requires { header_extra row < length part.old }
    ensures { part.new ≡ header_flits row.three header following ++ drop (header_extra row + 1) part.old }
{
    part[0] = flit_fields::flit1(header, following);
    if row.three {
        part[1] = flit_fields::flit2(header);
        part[2] = flit_fields::flit3(header);
    }
}

// The data. By a loop: of these two slices the compiler knows not that they lie apart, so copy_from_slice is a call of memmove, which costs
// more than eight words and which an archive for C would have to be given.
fn copy_words(part: &mut [u64], words: &[u64])
    requires { length part.old ≡ length words.now }
    ensures { part.new ≡ words.now }
{
    for place in 0..words.len() {
        part[place] = words[place];
    }
}

// A message: the header flits, and the data behind them.
pub fn write_message(part: &mut [u64], row: TypeRow, header: Header, following: u64, words: &[u64])
    requires { header_extra row + 1 + length words.now ≤ length part.old }
    ensures { part.new ≡ (header_flits row.three header following ++ words.now) ++ drop (header_extra row + 1 + length words.now) part.old }
{
    write_header(part, row, header, following);
    let behind = row.extra() as usize + 1;
    copy_words(&mut part[behind..behind + words.len()], words);
}
