// A line of text, put together from its end: an address comes last, and what is put goes before what stands. So a number's digits are written once, at their place.
ghost use Rattle.std.specs.Prelude.{◌≡◌, ◌+◌, ◌<◌, ◌≤◌, ◌++◌, false, length};
ghost use Rattle.std.specs.Fmt.{WritesOnOk, decimal, digit_glyph};

use itoa::write_digits;
use std::{fmt, str};

// More than five numbers of twenty digits, an address of eight, and the words between them.
const LONGEST: usize = 160;

#[derive(Clone, Copy)]
pub(crate) struct Line {
    bytes: [u8; LONGEST],
    start: usize,
    ghost within: { start ≤ 160 },
}

impl Line {
    ghost use Rattle.kernel.specs.LineText.{line_text};
    ghost use Rattle.kernel.specs.ReportText.{address_text};

    pub(crate) fn ending_in(address: u32) -> Line
        ensures text { line_text result ≡ address_text address }
        ensures start { result.start ≡ 152 }
    {
        let mut bytes = [0; LONGEST];
        let mut start = LONGEST;
        let mut rest = address;
        // the proof calls the loop by its name
        'digits: for _ in 0..8_u8 {
            start -= 1;
            bytes[start] = hexadecimal_digit(rest % 16);
            rest /= 16;
        }
        Line { bytes, start }
    }

    pub(crate) fn put(&mut self, words: &str)
        requires { length words.now ≤ self.old.start }
        ensures text { line_text self.new ≡ words.now ++ line_text self.old }
        ensures start { self.new.start + length words.now ≡ self.old.start }
    {
        let end = self.start;
        self.start -= words.len();
        self.bytes[self.start..end].copy_from_slice(words.as_bytes());
    }

    pub(crate) fn put_number(&mut self, number: u64)
        requires { 20 ≤ self.old.start }
        ensures text { line_text self.new ≡ decimal number ++ line_text self.old }
        ensures start { self.old.start ≤ self.new.start + 20 }
    {
        self.start = write_digits(number, &mut self.bytes, self.start);
    }

    pub(crate) fn write<W: fmt::Write>(&self, f: &mut fmt::Formatter<W>) -> fmt::Result
        ensures { WritesOnOk W.write_str_gives f.old result (line_text self.now) f.new }
    {
        match str::from_utf8(&self.bytes[self.start..]) {
            Ok(text) => f.write_str(text),
            Err(_) => Err(fmt::Error),
        }
    }
}

fn hexadecimal_digit(digit: u32) -> u8
    requires { digit < 16 }
    ensures { result ≡ digit_glyph false digit }
{
    let digit = digit as u8;
    if digit < 10 {
        b'0' + digit
    } else {
        b'a' + (digit - 10)
    }
}
