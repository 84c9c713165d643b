// Writing a text line by line.
ghost use Rattle.std.specs.Prelude.{◌≡◌, ◌≢◌, ◌≤◌, ◌<◌, ◌++◌, ◌∷◌, [], List, length, OnOk, OnErr};
ghost use Rattle.tc_io.specs.Faults.{Rose};
ghost use Rattle.tc_io.specs.Sink.{Appended, AreWrites, Write, WroteFront};
ghost use Rattle.tc_answer.specs.Writing.{AreWritten, BreakOff, lines_of};

use memchr::memchr;
use tc_io::{Sink, WriteFault};

/// Writes a text, each line of it by a write of its own.
pub fn write_lines<K: Sink>(text: &[u8], sink: &mut K) -> Result<(), WriteFault>
    ensures count { K.faults sink.old ≤ K.faults sink.new }
    ensures ok { OnOk result (Appended (K.written sink.old) (K.written sink.new) text.now) }
    ensures whole { OnOk result ((writes : List Write)
        × AreWrites K.write_gives sink.old writes sink.new
        × AreWritten (lines_of text.now) writes) }
    ensures fault { OnErr result (WroteFront (K.written sink.old) (K.written sink.new) text.now) }
    ensures broken { OnErr result ((writes : List Write)
        × AreWrites K.write_gives sink.old writes sink.new × BreakOff (lines_of text.now) writes) }
    ensures rose { OnErr result (Rose (K.faults sink.old) (K.faults sink.new)) }
{
    let mut rest = text;
    while !rest.is_empty() {
        let (line, behind) = split_line(rest);
        sink.write(line)?;
        rest = behind;
    }
    Ok(())
}

/// The first line with its line feed, and what stands behind it.
fn split_line(text: &[u8]) -> (&[u8], &[u8])
    requires { text.now ≢ [] }
    ensures first { lines_of text.now ≡ result.0.now ∷ lines_of result.1.now }
    ensures parts { result.0.now ++ result.1.now ≡ text.now }
    ensures shorter { length result.1.now < length text.now }
{
    match memchr(b'\n', text) {
        Some(end) => text.split_at(end + 1),
        None => text.split_at(text.len()),
    }
}
