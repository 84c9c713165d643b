// Characters that are written as references (XML 1.0, 2.4, 2.11, 3.3.3).
ghost use Rattle.std.specs.Prelude.{◌≡◌, [], ◌∷◌, OnOk, OnErr, IfSome, IfNone, IsTrue, flat_map};
ghost use Rattle.tc_io.specs.Sink.{Appended, WroteFront};
ghost use Rattle.tc_print.specs.Counting.{CountsFaults};
ghost use Rattle.tc_print.specs.Pieces.{escaped};

use memchr::{memchr2, memchr3};
use tc_io::{Sink, WriteFault};

/// Where a character stands.
#[derive(Clone, Copy)]
pub enum Within {
    /// In a text between tags.
    Text,
    /// In the value of an attribute, between double quotes.
    Value,
}

/// 1 at each byte that may not stand for itself in a text, 2 at each that may not in a value, 3 at both.
#[rattlefmt::skip]
static ESCAPED: [u8; 256] = [
    0, 0, 0, 0, 0, 0, 0, 0, 0, 2, 3, 0, 0, 3, 0, 0,
    0, 0, 0, 0, 0, 0, 0, 0, 0, 0, 0, 0, 0, 0, 0, 0,
    0, 0, 2, 0, 0, 0, 3, 0, 0, 0, 0, 0, 0, 0, 0, 0,
    0, 0, 0, 0, 0, 0, 0, 0, 0, 0, 0, 0, 3, 0, 1, 0,
    0, 0, 0, 0, 0, 0, 0, 0, 0, 0, 0, 0, 0, 0, 0, 0,
    0, 0, 0, 0, 0, 0, 0, 0, 0, 0, 0, 0, 0, 0, 0, 0,
    0, 0, 0, 0, 0, 0, 0, 0, 0, 0, 0, 0, 0, 0, 0, 0,
    0, 0, 0, 0, 0, 0, 0, 0, 0, 0, 0, 0, 0, 0, 0, 0,
    0, 0, 0, 0, 0, 0, 0, 0, 0, 0, 0, 0, 0, 0, 0, 0,
    0, 0, 0, 0, 0, 0, 0, 0, 0, 0, 0, 0, 0, 0, 0, 0,
    0, 0, 0, 0, 0, 0, 0, 0, 0, 0, 0, 0, 0, 0, 0, 0,
    0, 0, 0, 0, 0, 0, 0, 0, 0, 0, 0, 0, 0, 0, 0, 0,
    0, 0, 0, 0, 0, 0, 0, 0, 0, 0, 0, 0, 0, 0, 0, 0,
    0, 0, 0, 0, 0, 0, 0, 0, 0, 0, 0, 0, 0, 0, 0, 0,
    0, 0, 0, 0, 0, 0, 0, 0, 0, 0, 0, 0, 0, 0, 0, 0,
    0, 0, 0, 0, 0, 0, 0, 0, 0, 0, 0, 0, 0, 0, 0, 0,
];

impl Within {
    /// Whether a byte is seen to stand for itself.
    #[inline(always)]
    fn stands(self, byte: u8) -> bool
        ensures { IsTrue result → escaped self byte ≡ byte ∷ [] }
    {
        let flags = ESCAPED[usize::from(byte)];
        match self {
            Within::Text => flags & 1 == 0,
            Within::Value => flags & 2 == 0,
        }
    }

    /// The reference by which a character is written, where it may not stand for itself.
    #[inline(always)]
    fn reference(self, byte: u8) -> Option<&'static [u8]>
        ensures some { IfSome result (λ reference. escaped self byte ≡ reference.now) }
        ensures none { IfNone result (escaped self byte ≡ byte ∷ []) }
    {
        match (byte, self) {
            (b'&', _) => Some(b"&amp;"),
            (b'<', _) => Some(b"&lt;"),
            (b'>', Within::Text) => Some(b"&gt;"),
            (b'"', Within::Value) => Some(b"&quot;"),
            (b'\t', Within::Value) => Some(b"&#9;"),
            (b'\n', _) => Some(b"&#10;"),
            (b'\r', _) => Some(b"&#13;"),
            _ => None,
        }
    }
}

/// Whether each byte is seen to stand for itself, one after the other.
fn each_stands(within: Within, bytes: &[u8]) -> bool
    ensures { IsTrue result → flat_map (escaped within) bytes.now ≡ bytes.now }
{
    for byte in bytes {
        if !within.stands(*byte) {
            return false;
        }
    }
    true
}

/// The bytes from which on what needs a reference is searched for in all of them at once.
const LONG: usize = 32;

/// Whether each byte is seen to stand for itself.
fn is_plain(within: Within, bytes: &[u8]) -> bool
    ensures { IsTrue result → flat_map (escaped within) bytes.now ≡ bytes.now }
{
    if bytes.len() < LONG {
        return each_stands(within, bytes);
    }
    match within {
        Within::Text => {
            memchr3(b'&', b'<', b'>', bytes).is_none() && memchr2(b'\n', b'\r', bytes).is_none()
        }
        Within::Value => {
            memchr3(b'&', b'<', b'"', bytes).is_none()
                && memchr3(b'\t', b'\n', b'\r', bytes).is_none()
        }
    }
}

/// Writes bytes, with references for those that may not stand for themselves.
pub fn write_escaped<K: Sink>(within: Within, bytes: &[u8], sink: &mut K) -> Result<(), WriteFault>
    ensures ok { OnOk result
        (Appended (K.written sink.old) (K.written sink.new) (flat_map (escaped within) bytes.now)) }
    ensures fault { OnErr result
        (WroteFront (K.written sink.old) (K.written sink.new)
        (flat_map (escaped within) bytes.now)) }
    ensures faults { CountsFaults (K.faults sink.old) (K.faults sink.new) result }
{
    if is_plain(within, bytes) {
        return write_run(bytes, sink);
    }
    write_pieces(within, bytes, sink)
}

/// The same where some byte may not stand for itself. All that stands between two references is one piece.
#[inline(never)]
fn write_pieces<K: Sink>(within: Within, bytes: &[u8], sink: &mut K) -> Result<(), WriteFault>
    ensures ok { OnOk result
        (Appended (K.written sink.old) (K.written sink.new) (flat_map (escaped within) bytes.now)) }
    ensures fault { OnErr result
        (WroteFront (K.written sink.old) (K.written sink.new)
        (flat_map (escaped within) bytes.now)) }
    ensures faults { CountsFaults (K.faults sink.old) (K.faults sink.new) result }
{
    let mut written = 0;
    for (place, byte) in bytes.iter().enumerate() {
        if let Some(reference) = within.reference(*byte) {
            write_run(&bytes[written..place], sink)?;
            sink.write(reference)?;
            written = place + 1;
        }
    }
    write_run(&bytes[written..], sink)
}

/// Writes a piece, unless it is empty.
fn write_run<K: Sink>(run: &[u8], sink: &mut K) -> Result<(), WriteFault>
    ensures ok { OnOk result (Appended (K.written sink.old) (K.written sink.new) run.now) }
    ensures fault { OnErr result (WroteFront (K.written sink.old) (K.written sink.new) run.now) }
    ensures faults { CountsFaults (K.faults sink.old) (K.faults sink.new) result }
{
    if run.is_empty() {
        return Ok(());
    }
    sink.write(run)
}
