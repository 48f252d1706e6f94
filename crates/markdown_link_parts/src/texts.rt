//! The texts of destinations and titles, and the names of files.

ghost use Rattle.std.specs.Prelude.{◌≡◌, ◌-◌, ◌≤◌, IfOk, length, string_bytes};
ghost use Rattle.std.specs.List.{suffix_len};
ghost use Rattle.markdown_link_parts.specs.Texts.{text_of, is_path_byte, is_name_byte, path_len, file_part, file_name};

use crate::parts::inline_destination;
use markdown_spans::decoded::decoded;
use markdown_spans::words::{bytes_from, bytes_up_to};
use std::alloc::{AllocError, Global};

/// These bytes without escapes and entities.
///
/// # Errors
///
/// Out of memory is the only error.
pub fn text_of(alloc: Global, bytes: &[u8]) -> Result<String, AllocError>
    ensures { IfOk result (λ text. string_bytes text ≡ text_of bytes.now) }
{
    let decoded = decoded(alloc, true, bytes)?;
    let text = String::from_utf8_lossy(alloc, &decoded)?;
    Ok(text)
}

// Whether a byte is none with which a query or a fragment begins.
fn is_path_byte(b: u8) -> bool
    ensures { result ≡ is_path_byte b }
{
    !(b == b'?' || b == b'#')
}

fn is_name_byte(b: u8) -> bool
    ensures { result ≡ is_name_byte b }
{
    b != b'/'
}

// How many bytes stand before the query and the fragment of an address.
fn path_len(address: &[u8]) -> usize
    ensures value { result ≡ path_len address.now }
    ensures within { result ≤ length address.now }
{
    let mut i = 0;
    while i < address.len() && is_path_byte(address[i]) {
        i += 1;
    }
    i
}

// Where the last part of a path begins.
fn name_start(path: &[u8]) -> usize
    ensures value { result ≡ length path.now - suffix_len is_name_byte path.now }
    ensures within { result ≤ length path.now }
{
    let mut len = path.len();
    while len > 0 && is_name_byte(path[len - 1]) {
        len -= 1;
    }
    len
}

/// The name of the file to which an address leads: the last part of its path. It may be empty.
pub fn file_part(address: &[u8]) -> &[u8]
    ensures { result.now ≡ file_part address.now }
{
    let path = bytes_up_to(address, path_len(address));
    bytes_from(path, name_start(path))
}

/// The name of the file to which a link leads, of which these are the parentheses and what is between them: what stands behind the last
/// slash of its address, and before a question mark or a number sign. Escapes and entities are what they stand for. It may be empty.
///
/// # Errors
///
/// Out of memory is the only error.
pub fn file_name(alloc: Global, link: &[u8]) -> Result<String, AllocError>
    ensures { IfOk result (λ name. string_bytes name ≡ file_name link.now) }
{
    let address = decoded(alloc, true, inline_destination(link))?;
    let name = String::from_utf8_lossy(alloc, file_part(&address))?;
    Ok(name)
}
