// The words of a script line: decimal numbers, and bytes in hex, read and printed. It promises that what it reads is
// what its definitions say, and that nothing else is read. It uses the tests of numbers of `records`.
#![tactic(auto)]

ghost use Rattle.std.specs.Prelude.{◌≡◌, ◌≤◌, Some, IfOk, IfSome, option_map};
ghost use Rattle.script_words.specs.Words.{bytes_shown, bytes_written, decimal_of};
ghost use Rattle.script_words.specs.Words.{hex_byte_of, hex_digit_of, pairs_written};

use std::alloc::{AllocError, Global};
use std::fmt;

// A decimal number of any length. One of 2^64 or more is answered as 2^64 - 1, which is out of every limit too; the
// library's parse refuses such a number, and takes a sign.
pub fn decimal(text: &[u8]) -> Option<u64>
    ensures { result ≡ decimal_of text.now }
{
    if text.is_empty() {
        return None;
    }
    let mut n = 0u64;
    for b in text {
        if !b.is_ascii_digit() {
            return None;
        }
        n = n.saturating_mul(10).saturating_add(u64::from(*b - b'0'));
    }
    Some(n)
}

// The value of a lower-case hex digit. The kit's hex reads upper case too, which no script has.
fn hex_digit(b: u8) -> Option<u8>
    ensures value { result ≡ hex_digit_of b }
    ensures small { IfSome result (λ v. v ≤ 15) }
{
    match b {
        b'0'..=b'9' => Some(b - b'0'),
        b'a'..=b'f' => Some(b - b'a' + 10),
        _ => None,
    }
}

// The byte that two hex digits write.
fn hex_byte(high: u8, low: u8) -> Option<u8>
    ensures { result ≡ hex_byte_of high low }
{
    Some(hex_digit(high)? * 16 + hex_digit(low)?)
}

// The bytes that pairs of hex digits write.
fn paired(alloc: Global, text: &[u8]) -> Result<Option<Vec<u8>>, AllocError>
    ensures { IfOk result (λ read. option_map (λ v. v.items) read ≡ pairs_written text.now) }
{
    let (pairs, rest) = text.as_chunks::<2>();
    if !rest.is_empty() {
        return Ok(None);
    }
    let mut out = Vec::new(alloc);
    for [high, low] in pairs {
        let Some(byte) = hex_byte(*high, *low) else {
            return Ok(None);
        };
        out.push(byte)?;
    }
    Ok(Some(out))
}

// The bytes that pairs of hex digits write, none for "-"; an inner `None` where the text is neither.
pub fn bytes(alloc: Global, text: &[u8]) -> Result<Option<Vec<u8>>, AllocError>
    ensures { IfOk result (λ read. option_map (λ v. v.items) read ≡ bytes_written text.now) }
{
    match text {
        [] => Ok(None),
        [b'-'] => Ok(Some(Vec::new(alloc))),
        _ => paired(alloc, text),
    }
}

// Bytes as they are printed: in hex, "-" for none.
#[derive(Clone, Copy)]
pub struct Hex<'a>(pub &'a [u8]);

impl fmt::Display for Hex<'_> {
    ghost output = { λ h. Some (bytes_shown h.0.now) };

    fn fmt<W: fmt::Write>(&self, f: &mut fmt::Formatter<W>) -> fmt::Result {
        if self.0.is_empty() {
            return f.write_str("-");
        }
        for b in self.0 {
            let b = *b;
            write!(f, "{b:02x}")?;
        }
        Ok(())
    }
}
