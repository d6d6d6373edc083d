// The call that writes a message.
ghost use Rattle.std.specs.Prelude.{◌≡◌, length};
ghost use Rattle.flit_rules.specs.Writing.{told_written, written_of, buffer_of};

use flit_rules::Header;
use numbers::refusals::Refusal;

// Writes a message with its data at a place of the buffer, and says how many flits it wrote. Only its own flits change; a refusal changes
// none.
pub fn write(header: Header, words: &[u64], buffer: &mut [u64], at: usize) -> Result<usize, Refusal>
    ensures { (told_written result ≡ written_of header (length words.now) (length buffer.old) at) × (buffer.new ≡ buffer_of header words.now buffer.old at) }
{
    let row = flit_table::type_row(header.opcode);
    crate::refusal::check_message(row, header, words.len(), buffer.len(), at)?;
    let following = row.extra() + words.len() as u64;
    crate::message::write_message(&mut buffer[at..], row, header, following, words);
    Ok((following + 1) as usize)
}
