// Reads a program's input.
ghost use Rattle.std.specs.Prelude.{◌≤◌, ◌<◌, length, IfOk};
ghost use Rattle.std.specs.Io.KnownBytes.{Consumes, IsAtEnd};

use std::io;
use std::io::Read;

// Reads until the buffer is full or the input ends, and answers what it read. One read may give less than there is room for.
pub fn read_full<'a, R: Read>(reader: &mut R, buffer: &'a mut [u8]) -> io::Result<&'a [u8]>
    ensures within { IfOk result (λ read. length read.now ≤ length buffer.old) }
    ensures bytes { IfOk result (λ read. Consumes (R.remaining reader.old) (R.remaining reader.new) read.now) }
    ensures end { IfOk result (λ read. length read.now < length buffer.old → IsAtEnd (R.remaining reader.new)) }
{
    let mut count = 0;
    // no `for`: only a read says how much it gave
    while count < buffer.len() {
        let read = reader.read(&mut buffer[count..])?;
        if read == 0 {
            break;
        }
        count += read;
    }
    Ok(&buffer[..count])
}
