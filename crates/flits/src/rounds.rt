// The round trips as calls: specs/RoundTrips of flit_rules.
ghost use Rattle.std.specs.Prelude.{◌≡◌, length};
ghost use Rattle.flit_rules.specs.Reading.{told_read};
ghost use Rattle.flit_rules.specs.Writing.{told_written, buffer_of};
ghost use Rattle.flit_rules.specs.RoundTrips.{copied_of, copy_buffer, echo_of};

use flit_rules::{Header, Read};
use numbers::refusals::Refusal;

// Reads the front message and writes it again at a place of the buffer: exactly the flits that were read. Says how many they are.
pub fn copy(flits: &[u64], buffer: &mut [u64], at: usize) -> Result<usize, Refusal>
    ensures { (told_written result ≡ copied_of flits.now (length buffer.old) at) × (buffer.new ≡ copy_buffer flits.now buffer.old at) }
{
    let front = flit_reader::read(flits)?;
    let words = flit_reader::data_words(flits);
    flit_writer::write(front.header, words, buffer, at)
}

// Writes a message and reads it back from its place: the same fields, whatever stands behind it.
pub fn echo(header: Header, words: &[u64], buffer: &mut [u64], at: usize) -> Result<Read, Refusal>
    ensures { (told_read result ≡ echo_of header (length words.now) (length buffer.old) at) × (buffer.new ≡ buffer_of header words.now buffer.old at) }
{
    flit_writer::write(header, words, buffer, at)?;
    flit_reader::read_at(buffer, at)
}
