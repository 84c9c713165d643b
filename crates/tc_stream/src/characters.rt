// Characters that a cut between two pieces parts (XML 1.0, 2.2; RFC 3629, 4).
ghost use Rattle.std.specs.Prelude.{◌≡◌, ◌<◌, ◌≤◌, length, slice_index, MatchOption};
ghost use Rattle.tc_stream.specs.Cuts.{char_length, cut_bytes, TellsFront};

use crate::cuts::Cut;
use tc_scan::characters;

/// What some bytes are that may be the first ones of a character.
#[derive(Clone, Copy)]
pub(crate) enum Front<'t> {
    /// A character that a document may hold.
    Whole(&'t str),
    /// The first bytes of a character, if of any.
    Short,
    /// No character of a document begins so, whatever follows.
    Bad,
}

/// How many bytes a character has that begins with this byte, one where none begins so.
pub(crate) fn length_from(first: u8) -> usize
    ensures count { result ≡ char_length first }
    ensures few { result ≤ 4 }
{
    match first {
        0xC2..=0xDF => 2,
        0xE0..=0xEF => 3,
        0xF0..=0xF4 => 4,
        _ => 1,
    }
}

/// What these bytes are, of which there are at most as many as the first one says.
#[tactic(auto, using(crate::proofs::CutLaws::short_front))]
pub(crate) fn front_of(bytes: &[u8]) -> Front<'_>
    requires some { 0 < length bytes.now }
    requires few { length bytes.now ≤ char_length (slice_index bytes.now 0) }
    ensures { TellsFront bytes.now result }
{
    if bytes.len() < length_from(bytes[0]) {
        return Front::Short;
    }
    let text = characters(bytes);
    if text.is_empty() {
        Front::Bad
    } else {
        Front::Whole(text)
    }
}

/// The first bytes of a character that is cut off here: fewer than the first one says.
pub(crate) fn cut_off(bytes: &[u8]) -> Option<Cut>
    requires { 0 < length bytes.now }
    ensures { MatchOption result (char_length (slice_index bytes.now 0) ≤ length bytes.now)
        (λ cut. (cut_bytes cut ≡ bytes.now)
        × (length bytes.now < char_length (slice_index bytes.now 0))) }
{
    if bytes.len() >= length_from(bytes[0]) {
        return None;
    }
    let mut cut = Cut::none();
    for byte in bytes {
        cut = cut.with(*byte);
    }
    Some(cut)
}
