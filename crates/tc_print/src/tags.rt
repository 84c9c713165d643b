// Tags, and the default namespace that they declare (Namespaces in XML 1.0, 6.2).
// A short end tag is put together on the stack and written at once; one with a prefix or a name of more than
// 61 bytes piece by piece.
ghost use Rattle.std.specs.Prelude.{◌≡◌, ◌≤◌, ◌++◌, codes, length, IfOk, IsTrue, OnOk, OnErr};
ghost use Rattle.tc_io.specs.Sink.{Appended, WroteFront};
ghost use Rattle.tc_model.specs.Printed as p;
ghost use Rattle.tc_model.specs.Views.{name};
ghost use Rattle.tc_print.specs.Counting.{CountsFaults};
ghost use Rattle.tc_print.specs.Pieces.{begun_tag, end_tag};

use crate::escapes::{Within, write_escaped};
use arrayvec::ArrayString;
use tc_io::{Sink, WriteFault};
use tc_model::Name;

/// The namespace of the prefix `xml`, which needs no declaration (Namespaces in XML 1.0, 3).
const XML_URI: &str = "http://www.w3.org/XML/1998/namespace";

/// Whether an element of this name declares no default namespace where this one is in force.
#[inline(always)]
fn needs_no_declaration(default: &str, of: &Name<'_>) -> bool
    ensures { result ≡ p.needs_no_declaration default.now (name of.now) }
{
    of.uri == default || of.uri == XML_URI
}

/// Writes a start tag, but for its end, and gives the default namespace that is in force within the element.
pub fn begin_tag<'a, K: Sink>(
    default: &'a str,
    of: &Name<'a>,
    sink: &mut K,
) -> Result<&'a str, WriteFault>
    ensures ok { OnOk result
        (Appended (K.written sink.old) (K.written sink.new) (begun_tag default.now (name of.now))) }
    ensures fault { OnErr result
        (WroteFront (K.written sink.old) (K.written sink.new)
        (begun_tag default.now (name of.now))) }
    ensures within { IfOk result
        (λ within. within.now ≡ p.default_within default.now (name of.now)) }
    ensures faults { CountsFaults (K.faults sink.old) (K.faults sink.new) result }
{
    sink.write(b"<")?;
    write_tag_name(of, sink)?;
    write_declaration(default, of, sink)
}

/// The most bytes of a name whose end tag is written at once.
const SHORT: usize = 61;

/// Whether an end tag is short, and its name has no prefix.
fn is_short(of: &Name<'_>) -> bool
    ensures local { IsTrue result → p.tag_name (name of.now) ≡ of.now.local.now }
    ensures short { IsTrue result → length of.now.local.now ≤ 61 }
{
    if of.uri == XML_URI {
        return false;
    }
    of.local.len() <= SHORT
}

/// An end tag, put together.
fn short_end_tag(local: &str) -> ArrayString<64>
    requires { length local.now ≤ 61 }
    ensures { result.bytes ≡ codes "</" ++ local.now ++ codes ">" }
{
    let mut tag = ArrayString::new();
    tag.push_str("</");
    tag.push_str(local);
    tag.push_str(">");
    tag
}

/// Writes a short end tag at once.
#[inline(never)]
fn write_short_end_tag<K: Sink>(local: &str, sink: &mut K) -> Result<(), WriteFault>
    requires { length local.now ≤ 61 }
    ensures ok { OnOk result
        (Appended (K.written sink.old) (K.written sink.new)
        (codes "</" ++ local.now ++ codes ">")) }
    ensures fault { OnErr result
        (WroteFront (K.written sink.old) (K.written sink.new)
        (codes "</" ++ local.now ++ codes ">")) }
    ensures faults { CountsFaults (K.faults sink.old) (K.faults sink.new) result }
{
    let tag = short_end_tag(local);
    sink.write(tag.as_str().as_bytes())
}

/// Writes an end tag.
pub fn write_end_tag<K: Sink>(of: &Name<'_>, sink: &mut K) -> Result<(), WriteFault>
    ensures ok { OnOk result
        (Appended (K.written sink.old) (K.written sink.new) (end_tag (name of.now))) }
    ensures fault { OnErr result
        (WroteFront (K.written sink.old) (K.written sink.new) (end_tag (name of.now))) }
    ensures faults { CountsFaults (K.faults sink.old) (K.faults sink.new) result }
{
    if is_short(of) {
        return write_short_end_tag(of.local, sink);
    }
    write_long_end_tag(of, sink)
}

/// Writes an end tag piece by piece.
fn write_long_end_tag<K: Sink>(of: &Name<'_>, sink: &mut K) -> Result<(), WriteFault>
    ensures ok { OnOk result
        (Appended (K.written sink.old) (K.written sink.new) (end_tag (name of.now))) }
    ensures fault { OnErr result
        (WroteFront (K.written sink.old) (K.written sink.new) (end_tag (name of.now))) }
    ensures faults { CountsFaults (K.faults sink.old) (K.faults sink.new) result }
{
    sink.write(b"</")?;
    write_tag_name(of, sink)?;
    sink.write(b">")
}

/// Writes the name in a tag.
pub fn write_tag_name<K: Sink>(of: &Name<'_>, sink: &mut K) -> Result<(), WriteFault>
    ensures ok { OnOk result
        (Appended (K.written sink.old) (K.written sink.new) (p.tag_name (name of.now))) }
    ensures fault { OnErr result
        (WroteFront (K.written sink.old) (K.written sink.new) (p.tag_name (name of.now))) }
    ensures faults { CountsFaults (K.faults sink.old) (K.faults sink.new) result }
{
    if of.uri == XML_URI {
        sink.write(b"xml:")?;
    }
    sink.write(of.local.as_bytes())
}

/// Writes the declaration in a start tag, where one is needed, and gives the default namespace that is in force within
/// the element.
fn write_declaration<'a, K: Sink>(
    default: &'a str,
    of: &Name<'a>,
    sink: &mut K,
) -> Result<&'a str, WriteFault>
    ensures ok { OnOk result
        (Appended (K.written sink.old) (K.written sink.new)
        (p.declaration default.now (name of.now))) }
    ensures fault { OnErr result
        (WroteFront (K.written sink.old) (K.written sink.new)
        (p.declaration default.now (name of.now))) }
    ensures within { IfOk result
        (λ within. within.now ≡ p.default_within default.now (name of.now)) }
    ensures faults { CountsFaults (K.faults sink.old) (K.faults sink.new) result }
{
    if needs_no_declaration(default, of) {
        return Ok(default);
    }
    sink.write(b" xmlns=\"")?;
    write_escaped(Within::Value, of.uri.as_bytes(), sink)?;
    sink.write(b"\"")?;
    Ok(of.uri)
}
