// Numbers in a listing, in decimal and hexadecimal.
ghost use Rattle.std.specs.Prelude.{◌≡◌, ◌+◌, ◌≤◌, ◌<◌, ◌++◌, length};
ghost use Rattle.lists.specs.Over.{Put, Placed};
ghost use Rattle.listing.specs.Digits.{decimal_base, hexadecimal_base, most_decimal_digits, digit_byte, digits, hex16, hex12, decimal, number_then};

const DECIMAL: u64 = 10;

const HEXADECIMAL: u64 = 16;
// a flit, and a line address
pub const FLIT_DIGITS: usize = 16;

pub const ADDRESS_DIGITS: usize = 12;

const HUNDRED: u64 = 100;

// ---- digits, and how many there are

// A look-up is twice as fast as a test.
const DIGITS: [u8; 16] = *b"0123456789ABCDEF";

// A hexadecimal digit.
fn digit(value: u64) -> u8
    requires { value < hexadecimal_base }
    ensures { result ≡ digit_byte value }
{
    DIGITS[value as usize]
}

// ---- numbers put where they fit

// The last hexadecimal digits of a number, from the last to the first.
pub fn put_hex<const COUNT: usize>(buffer: &mut [u8], at: usize, number: u64) -> usize
    requires { at + COUNT ≤ length buffer.old }
    ensures { Put buffer.old buffer.new at result (digits hexadecimal_base COUNT number) }
{
    let mut rest = number;
    for place in (0..COUNT).rev() {
        buffer[at + place] = digit(rest % HEXADECIMAL);
        rest /= HEXADECIMAL;
    }
    at + COUNT
}

// The last decimal digits of a number, from the last to the first: two for each division, and the first of an odd count alone.
// The count is no length of a buffer: it says how many are put.
fn put_tens(buffer: &mut [u8], at: usize, count: usize, number: u64) -> usize
    requires { at + count ≤ length buffer.old }
    ensures { Put buffer.old buffer.new at result (digits decimal_base count number) }
{
    let mut rest = number;
    let first = at + count % 2;
    for pair in (0..count / 2).rev() {
        let two = rest % HUNDRED;
        buffer[first + 2 * pair + 1] = b'0' + (two % DECIMAL) as u8;
        buffer[first + 2 * pair] = b'0' + (two / DECIMAL) as u8;
        rest /= HUNDRED;
    }
    if at < first {
        buffer[at] = b'0' + (rest % DECIMAL) as u8;
    }
    at + count
}

// ---- numbers in decimal

// A number, and how many digits it has.
#[derive(Clone, Copy)]
pub struct Numeral {
    pub number: u64,
    pub count: usize,
    ghost counted: { count ≡ length (decimal number) },
    ghost short: { count ≤ most_decimal_digits },
}

impl Numeral {
    pub fn of(number: u64) -> Numeral
        ensures { result.number ≡ number }
    {
        // most have one digit
        let count = match number {
            0..DECIMAL => 1,
            _ => number.ilog10() as usize + 1,
        };
        Numeral { number, count }
    }

    pub fn put(self, buffer: &mut [u8], at: usize) -> usize
        requires { at + self.count ≤ length buffer.old }
        ensures { Put buffer.old buffer.new at result (decimal self.number) }
    {
        if self.number >= DECIMAL {
            return put_tens(buffer, at, self.count, self.number);
        }
        buffer[at] = b'0' + self.number as u8;
        at + 1
    }

    // The number, and the byte behind it.
    pub fn put_then(self, buffer: &mut [u8], at: usize, behind: u8) -> usize
        requires { at + self.count + 1 ≤ length buffer.old }
        ensures { Put buffer.old buffer.new at result (number_then self.number behind) }
    {
        let next = self.put(buffer, at);
        lists::put_byte(buffer, next, behind)
    }

    // A text, the number, and the byte behind it.
    pub fn put_labelled(self, buffer: &mut [u8], at: usize, text: &[u8], behind: u8) -> usize
        requires { at + (length text.now + (self.count + 1)) ≤ length buffer.old }
        ensures { Put buffer.old buffer.new at result (text.now ++ number_then self.number behind) }
    {
        let next = lists::put_text(buffer, at, text);
        self.put_then(buffer, next, behind)
    }
}

// ---- numbers anywhere

pub fn put_decimal(buffer: &mut [u8], at: usize, number: u64) -> usize
    ensures { Placed buffer.old buffer.new at result (decimal number) }
{
    let numeral = Numeral::of(number);
    if !lists::room(buffer.len(), at, numeral.count) {
        return buffer.len() + 1;
    }
    numeral.put(buffer, at)
}

fn put_hex_of<const COUNT: usize>(buffer: &mut [u8], at: usize, number: u64) -> usize
    ensures { Placed buffer.old buffer.new at result (digits hexadecimal_base COUNT number) }
{
    if !lists::room(buffer.len(), at, COUNT) {
        return buffer.len() + 1;
    }
    put_hex::<COUNT>(buffer, at, number)
}

// One for each count, by its name: docs/PROVED.md names both.
pub fn put_hex16(buffer: &mut [u8], at: usize, number: u64) -> usize
    ensures { Placed buffer.old buffer.new at result (hex16 number) }
{
    put_hex_of::<FLIT_DIGITS>(buffer, at, number)
}

pub fn put_hex12(buffer: &mut [u8], at: usize, number: u64) -> usize
    ensures { Placed buffer.old buffer.new at result (hex12 number) }
{
    put_hex_of::<ADDRESS_DIGITS>(buffer, at, number)
}
