// Where markup begins, found 32 bytes at once (XML 1.0, 2.4, [14]).
ghost use Rattle.std.specs.Prelude.{◌≡◌, ◌≤◌, length, IfSome};
ghost use Rattle.std.specs.List.{prefix_len};
ghost use Rattle.tc_model.specs.XmlTextReferences as xml;
ghost use Rattle.tc_scan.specs.Blocks.{is_clear};

use std::simd::prelude::*;

/// How many bytes are looked at at once.
const BLOCK: usize = 32;

/// How many bytes of a block stand before its first `<` or `&`.
#[inline(always)]
fn plain_block_len(block: u8x32) -> usize
    ensures count { result ≡ prefix_len xml.is_plain block }
    ensures within { result ≤ 32 }
{
    let markup = block.simd_eq(u8x32::splat(b'<')) | block.simd_eq(u8x32::splat(b'&'));
    let found = markup.to_bitmask();
    if found == 0 {
        BLOCK
    } else {
        found.trailing_zeros() as usize
    }
}

/// Whether no markup begins with this byte.
fn is_no_markup(byte: u8) -> bool
    ensures { result ≡ xml.is_plain byte }
{
    !(byte == b'<' || byte == b'&')
}

/// How many bytes stand before the first `<` or `&`, each looked at.
fn each_plain_len(bytes: &[u8]) -> usize
    ensures count { result ≡ prefix_len xml.is_plain bytes.now }
    ensures within { result ≤ length bytes.now }
{
    let mut count = 0;
    for byte in bytes {
        if !is_no_markup(*byte) {
            return count;
        }
        count += 1;
    }
    count
}

/// How many bytes stand before the first `<` or `&`, or before the end.
pub(crate) fn plain_bytes_len(bytes: &[u8]) -> usize
    ensures count { result ≡ prefix_len xml.is_plain bytes.now }
    ensures within { result ≤ length bytes.now }
{
    let mut at = 0;
    while bytes.len() - at >= BLOCK {
        let count = plain_block_len(u8x32::from_slice(&bytes[at..]));
        if count < BLOCK {
            return at + count;
        }
        at += BLOCK;
    }
    at + each_plain_len(&bytes[at..])
}

/// How many bytes of a block stand before its first `<`, `&`, `]` or CR.
#[inline(always)]
fn clear_block_len(block: u8x32) -> usize
    ensures count { result ≡ prefix_len is_clear block }
    ensures within { result ≤ 32 }
{
    let markup = block.simd_eq(u8x32::splat(b'<')) | block.simd_eq(u8x32::splat(b'&'));
    let others = block.simd_eq(u8x32::splat(b']')) | block.simd_eq(u8x32::splat(b'\r'));
    let found = (markup | others).to_bitmask();
    if found == 0 {
        BLOCK
    } else {
        found.trailing_zeros() as usize
    }
}

/// How many bytes stand before the first `<`, `&`, `]` or CR, where a whole block begins before that.
pub fn clear_len(bytes: &[u8]) -> Option<usize>
    ensures { IfSome result (λ n. n ≡ prefix_len is_clear bytes.now) }
{
    let mut at = 0;
    while bytes.len() - at >= BLOCK {
        let count = clear_block_len(u8x32::from_slice(&bytes[at..]));
        if count < BLOCK {
            return Some(at + count);
        }
        at += BLOCK;
    }
    None
}
