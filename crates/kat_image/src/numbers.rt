//! The numbers of words and of cells.

ghost use Rattle.std.specs.Prelude.{◌≡◌, ◌<◌, ◌≤◌, IfOk, IfSome, length, option_and_then};
ghost use Rattle.std.specs.Str.{all_ascii_digits};
ghost use Rattle.kat_image.specs.Words.{number_of, index_of};
ghost use Rattle.hex.specs.Hex.{decode_of};
ghost use Rattle.kat_image.specs.Lines.{decoded, numbers_in, cells_in, cell_in, size_of_cell, bytes_behind};

use hex::FromHexError;
use kat_tree::number_of_word;
use kat_value::{is_literal, is_width};
use sqlite_items::Items;
use std::alloc::{AllocError, Global};

/// The number that a word spells as a token of tree text.
pub(crate) fn number_of(word: &str) -> Option<u64>
    ensures { result ≡ number_of word.now }
{
    number_of_word(word)
}

/// The number that a word spells in decimal digits alone.
pub(crate) fn index_of_word(word: &str) -> Option<u64>
    ensures { result ≡ index_of word.now }
{
    if are_digits(word.as_bytes()) {
        number_of(word)
    } else {
        None
    }
}

/// Whether all bytes are decimal digits.
fn are_digits(bytes: &[u8]) -> bool
    ensures { result ≡ all_ascii_digits bytes.now }
{
    for byte in bytes {
        if !byte.is_ascii_digit() {
            return false;
        }
    }
    true
}

/// The numbers of at least one cell of so many bits that hexadecimal digits give, each its whole
/// bytes, the highest first.
pub(crate) fn numbers_in(
    alloc: Global,
    width: u64,
    digits: &[u8],
) -> Result<Option<Items<u64>>, AllocError>
    ensures { IfOk result (λ numbers.
        numbers ≡ option_and_then (numbers_in width) (decoded (decode_of digits.now))) }
{
    match hex::decode(alloc, digits) {
        Ok(bytes) => numbers_of_bytes(alloc, width, bytes.as_slice()),
        Err(FromHexError::OutOfMemory) => Err(AllocError),
        Err(_) => Ok(None),
    }
}

/// The numbers of at least one cell of so many bits, each its whole bytes.
fn numbers_of_bytes(
    alloc: Global,
    width: u64,
    bytes: &[u8],
) -> Result<Option<Items<u64>>, AllocError>
    ensures { IfOk result (λ numbers. numbers ≡ numbers_in width bytes.now) }
{
    if !is_width(width) || bytes.is_empty() {
        return Ok(None);
    }
    cells_in(alloc, width, width.div_ceil(8) as usize, bytes)
}

/// The numbers of cells of so many bits, each of so many bytes, where each number fits.
fn cells_in(
    alloc: Global,
    width: u64,
    size: usize,
    bytes: &[u8],
) -> Result<Option<Items<u64>>, AllocError>
    requires size { size ≡ size_of_cell width }
    requires some { 0 < size }
    requires small { size ≤ 8 }
    ensures { IfOk result (λ numbers. numbers ≡ cells_in width (length bytes.now) bytes.now) }
{
    let mut numbers = Items::new(alloc);
    let mut rest = bytes;
    while !rest.is_empty() {
        let Some(number) = cell_in(width, size, rest) else {
            return Ok(None);
        };
        numbers.push(number)?;
        let (_, behind) = rest.split_at(size);
        rest = behind;
    }
    Ok(Some(numbers))
}

/// The number of the cell at the front of bytes, where it fits.
fn cell_in(width: u64, size: usize, bytes: &[u8]) -> Option<u64>
    requires size { size ≡ size_of_cell width }
    requires small { size ≤ 8 }
    ensures number { result ≡ cell_in width bytes.now }
    ensures within { IfSome result (λ _. size ≤ length bytes.now) }
{
    if bytes.len() < size {
        return None;
    }
    let number = number_of_bytes(bytes.split_at(size).0);
    if is_literal(width, number) {
        Some(number)
    } else {
        None
    }
}

/// The number that up to eight bytes make, the highest first.
fn number_of_bytes(bytes: &[u8]) -> u64
    requires { length bytes.now ≤ 8 }
    ensures { result ≡ bytes_behind 0 bytes.now }
{
    let mut number: u64 = 0;
    for byte in bytes {
        number = number * 256 + u64::from(*byte);
    }
    number
}
