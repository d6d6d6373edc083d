// Prints on a writer.
ghost use Rattle.std.specs.Prelude.{nat_le, if◌then◌else◌, [], length, take, OnOk};
ghost use Rattle.std.specs.Io.KnownBytes.{Appends};

use std::io::Write;
use std::{fmt, io};

// Words as hexadecimal numbers of 16 digits, a space before each.
#[derive(Clone, Copy)]
pub struct Words<'a>(pub &'a [u64]);

impl fmt::Display for Words<'_> {
    fn fmt<W: fmt::Write>(&self, f: &mut fmt::Formatter<W>) -> fmt::Result {
        for word in self.0 {
            write!(f, " {word:016x}")?;
        }
        Ok(())
    }
}

// Lines that were put at the front of a buffer, up to a place: past its end, they did not fit.
pub fn print_fitted<W: Write>(out: &mut W, buffer: &[u8], place: usize) -> io::Result<()>
    ensures { let lines = (if nat_le place (length buffer.now) then take place buffer.now else []) in
        OnOk result (Appends (W.contents out.old) (W.contents out.new) lines) }
{
    match buffer.get(..place) {
        Some(lines) => out.write_all(lines),
        None => Ok(()),
    }
}
