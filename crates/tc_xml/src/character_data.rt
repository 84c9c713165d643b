// Character data (XML 1.0, 2.4).
// Most of it stands for itself up to the next markup, which is found 32 bytes at once. What has a `]`, with which `]]>`
// would begin, or a CR, which is a line end that changes, is looked at again.
ghost use Rattle.std.specs.Prelude.{◌≡◌, ℕ, List, not, IfSome, MatchOption};
ghost use Rattle.tc_model.specs.XmlTextBytes as bytes;
ghost use Rattle.tc_model.specs.XmlTextReferences as xml;

use tc_scan::{clear_len, plain_len, up_to};

/// Whether a run of characters ends before this byte.
fn ends_run(byte: u8) -> bool
    ensures { result ≡ not (xml.is_plain byte) }
{
    byte == b'<' || byte == b'&'
}

/// The character data at the front, where all of it is seen to stand for itself, and what follows it.
pub(crate) fn clear_data(text: &str) -> Option<(&str, &str)>
    ensures { IfSome result (λ r. xml.CharacterDataAt text.now r.0.now r.1.now
        × (bytes.line_ends r.0.now ≡ r.0.now)) }
{
    let bytes = text.as_bytes();
    let count = clear_len(bytes)?;
    if count == 0 || count >= bytes.len() || !ends_run(bytes[count]) {
        return None;
    }
    Some(text.split_at(count))
}

/// The character data at the front, whatever it holds, and what follows it.
#[inline(never)]
pub(crate) fn guarded_data(text: &str) -> Option<(&str, &str)>
    ensures { MatchOption result
        ((run after : List ℕ) → xml.CharacterDataAt text.now run after → ⊥)
        (λ r. xml.CharacterDataAt text.now r.0.now r.1.now) }
{
    let count = plain_len(text);
    if count == 0 {
        return None;
    }
    let (run, rest) = text.split_at(count);
    match up_to(run, "]]>") {
        Some(_) => None,
        None => Some((run, rest)),
    }
}

/// The character data at the front, and what follows it.
pub(crate) fn character_data(text: &str) -> Option<(&str, &str)>
    ensures { MatchOption result
        ((run after : List ℕ) → xml.CharacterDataAt text.now run after → ⊥)
        (λ r. xml.CharacterDataAt text.now r.0.now r.1.now) }
{
    match clear_data(text) {
        Some(found) => Some(found),
        None => guarded_data(text),
    }
}
