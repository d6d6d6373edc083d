// Test cases as lines: the first byte of a line says what it is, the numbers after it are in base 10 or 16.
ghost use Rattle.std.specs.Prelude.{◌≡◌, length, slice_index, take, OnOk, ◌++◌, ◌==◌, ◌≤◌};
ghost use Rattle.std.specs.Iterator.{at_most};
ghost use Rattle.std.specs.List.{prefix_len};
ghost use Rattle.program_io.specs.Cases.{IsCase, ReadsCase, digit_of, number_of, numbers_of, most_numbers};

use std::alloc::AllocError;

// Numbers of a line behind these are not kept.
const MOST_NUMBERS: usize = 64;

// A line: its first byte, if it has one, and the text after it, in which the numbers stand.
#[derive(Clone, Copy)]
pub struct Case<'a> {
    pub command: Option<u8>,
    text: &'a [u8],
    base: u64,
}

// The lines of an input, in order. What stands behind the last newline is a remark.
#[derive(Drop)]
pub struct Cases<'a> {
    input: &'a [u8],
    base: u64,
}

// A number of a line, 0 past its end.
pub fn number_at(numbers: &[u64], index: usize) -> u64
    ensures { result ≡ slice_index numbers.now index }
{
    numbers.get(index).copied().unwrap_or(0)
}

// The value of a digit. Letters are capitals, so not `char::to_digit`, which takes small ones too.
fn digit(byte: u8, base: u64) -> Option<u64>
    ensures { result ≡ digit_of base byte }
{
    let value = match byte {
        b'0'..=b'9' => u64::from(byte - b'0'),
        b'A'..=b'F' => u64::from(byte - b'A' + 10),
        _ => return None,
    };
    if value < base { Some(value) } else { None }
}

// The number that some digits say. One that is too large wraps.
fn number(digits: &[u8], base: u64) -> u64
    ensures { result ≡ number_of base digits.now }
{
    digits.iter().filter_map(|byte| digit(*byte, base)).fold(
        0,
        |number, digit| number.wrapping_mul(base).wrapping_add(digit),
    )
}

// Puts the numbers of a text behind others. Each is a run of digits that is as long as can be.
fn put_numbers(text: &[u8], base: u64, numbers: &mut Vec<u64>) -> Result<(), AllocError>
    ensures { OnOk result (numbers.new.items ≡ numbers.old.items ++ take most_numbers (numbers_of base text.now)) }
{
    numbers.extend(
        text.split(|byte| digit(*byte, base).is_none())
            .filter(|digits| !digits.is_empty())
            .map(|digits| number(digits, base))
            .take(MOST_NUMBERS),
    )
}

// How many bytes 0 stand at the front of a line.
fn zeros(line: &[u8]) -> usize
    ensures count { result ≡ prefix_len (λ byte. byte == 0) line.now }
    ensures within { result ≤ length line.now }
{
    line.iter().take_while(|byte| **byte == 0).count()
}

impl<'a> Case<'a> {
    // Bytes 0 before the command are passed over.
    fn of(line: &'a [u8], base: u64) -> Case<'a>
        ensures { IsCase base line.now result }
    {
        match line[zeros(line)..].split_first() {
            Some((command, text)) => Case {
                command: Some(*command),
                text,
                base,
            },
            None => Case {
                command: None,
                text: &[],
                base,
            },
        }
    }

    // Puts the line's numbers in place of those that are there: so the lines of an input share their memory.
    pub fn numbers(self, numbers: &mut Vec<u64>) -> Result<(), AllocError>
        ensures { OnOk result (numbers.new.items ≡ take most_numbers (numbers_of self.entry.base self.entry.text.now)) }
    {
        numbers.clear();
        put_numbers(self.text, self.base, numbers)
    }
}

impl<'a> Cases<'a> {
    pub fn new(input: &'a [u8], base: u64) -> Cases<'a>
        ensures { (result.input.now ≡ input.entry.now) × (result.base ≡ base) }
    {
        Cases { input, base }
    }
}

impl<'a> Iterator for Cases<'a> {
    type Item = Case<'a>;

    ghost next_gives = { λ s r t. ReadsCase s.base s.input.now r t.input.now × (t.base ≡ s.base) };

    ghost remaining = { λ s. at_most (length s.input.now) };

    fn next(&mut self) -> Option<Case<'a>> {
        let end = self.input.iter().position(|byte| *byte == b'\n')?;
        let line = &self.input[..end];
        self.input = &self.input[end + 1..];
        Some(Case::of(line, self.base))
    }
}
