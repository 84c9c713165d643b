// Where tags end (XML 1.0, 3.1, [40] to [44]).
ghost use Rattle.std.specs.Prelude.{Some, None};
ghost use Rattle.tc_stream.specs.TagEnds.{TellsEndTag, TellsTag};

use memchr::{memchr, memchr3};

/// What the next quote or `>` in some bytes makes of a tag.
#[derive(Clone, Copy)]
pub(crate) enum TagEnd {
    /// None is there.
    Open,
    /// Behind so many bytes it goes on within these quotes or none.
    Quoted(Option<u8>, usize),
    /// Behind so many bytes it has ended.
    Behind(usize),
}

/// How a start tag or an empty-element tag goes on that has come so far out of quotes.
fn end_of_open(bytes: &[u8]) -> TagEnd
    ensures { TellsTag None bytes.now result }
{
    match memchr3(b'"', b'\'', b'>', bytes) {
        Some(at) => {
            let byte = bytes[at];
            if byte == b'>' {
                TagEnd::Behind(at + 1)
            } else {
                TagEnd::Quoted(Some(byte), at + 1)
            }
        }
        None => TagEnd::Open,
    }
}

/// How one goes on that has come so far within these quotes.
fn end_of_quoted(quote: u8, bytes: &[u8]) -> TagEnd
    ensures { TellsTag (Some quote) bytes.now result }
{
    match memchr(quote, bytes) {
        Some(at) => TagEnd::Quoted(None, at + 1),
        None => TagEnd::Open,
    }
}

/// How a start tag or an empty-element tag goes on that has come so far within these quotes or none.
pub(crate) fn end_of_tag(quote: Option<u8>, bytes: &[u8]) -> TagEnd
    ensures { TellsTag quote bytes.now result }
{
    match quote {
        Some(quote) => end_of_quoted(quote, bytes),
        None => end_of_open(bytes),
    }
}

/// How many bytes there are through the end of an end tag, if it ends.
pub(crate) fn end_of_end_tag(bytes: &[u8]) -> Option<usize>
    ensures { TellsEndTag bytes.now result }
{
    let at = memchr(b'>', bytes)?;
    Some(at + 1)
}
