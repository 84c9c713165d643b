// Reading the operands of a command.
ghost use Rattle.std.specs.Prelude.{◌≡◌, ◌≤◌, ◌∷◌, [], List, IfOk, IfErr, Ok, Err};
ghost use Rattle.tc_io.specs.Reads.{Happened};
ghost use Rattle.tc_io.specs.Store.{Read};
ghost use Rattle.tc_io.specs.declared.StoreFault.{StoreFault};
ghost use Rattle.tc_answer.specs.AnswersSeen.{IsUnread, IsFirstUnread, read_of, source};
ghost use Rattle.tc_answer.specs.Words.{plain, schema};

use crate::command::Triple;
use crate::sources::Source;
use std::alloc::Global;
use tc_io::{Store, StoreFault};

/// An operand that was read: the word that names it, and its text.
#[derive(Drop)]
pub struct Operand<'w> {
    pub name: &'w str,
    pub text: Vec<u8>,
}

/// Why an operand was not read.
#[derive(Clone, Copy)]
pub enum Unread<'w> {
    /// The file that this word names cannot be read.
    Unreadable(&'w str),
    /// A file has more bytes than a file may have.
    TooLong,
    /// Memory was refused.
    NoMemory,
}

/// The operands of a check.
#[derive(Drop)]
pub struct Operands<'w> {
    pub input: Operand<'w>,
    pub output: Operand<'w>,
    pub sheet: Operand<'w>,
}

/// Reads the operands of a check, in order.
pub fn read_triple<'w, S: Store>(
    alloc: Global,
    triple: Triple<'w>,
    store: &mut S,
) -> Result<Operands<'w>, Unread<'w>>
    ensures same { S.holds store.new ≡ S.holds store.old }
    ensures count { S.faults store.old ≤ S.faults store.new }
    ensures input { IfOk result (λ read. read.input.name.now ≡ triple.entry.input.now) }
    ensures output { IfOk result (λ read. read.output.name.now ≡ triple.entry.output.now) }
    ensures sheet { IfOk result (λ read. read.sheet.name.now ≡ triple.entry.sheet.now) }
    ensures ok { IfOk result (λ read. Happened S.read_gives S.holds S.faults store.old store.new
        (read_of (schema triple.entry.input.now) read.input ∷ read_of
        (schema triple.entry.output.now) read.output
        ∷ read_of (plain triple.entry.sheet.now) read.sheet ∷ [])) }
    ensures err { IfErr result (λ unread. (reads : List Read)
        × Happened S.read_gives S.holds S.faults store.old store.new reads
        × IsFirstUnread
        (schema triple.entry.input.now ∷ schema triple.entry.output.now ∷ plain
        triple.entry.sheet.now ∷ []) reads unread) }
{
    let input = read_operand(alloc, Source::schema(triple.input), store)?;
    let output = read_operand(alloc, Source::schema(triple.output), store)?;
    let sheet = read_operand(alloc, Source::plain(triple.sheet), store)?;
    Ok(Operands {
        input,
        output,
        sheet,
    })
}

/// Reads the operands of a check and a certificate, in order.
pub fn read_verified<'w, S: Store>(
    alloc: Global,
    triple: Triple<'w>,
    certificate: &'w str,
    store: &mut S,
) -> Result<(Operands<'w>, Operand<'w>), Unread<'w>>
    ensures same { S.holds store.new ≡ S.holds store.old }
    ensures count { S.faults store.old ≤ S.faults store.new }
    ensures input { IfOk result (λ read. read.0.input.name.now ≡ triple.entry.input.now) }
    ensures output { IfOk result (λ read. read.0.output.name.now ≡ triple.entry.output.now) }
    ensures sheet { IfOk result (λ read. read.0.sheet.name.now ≡ triple.entry.sheet.now) }
    ensures certificate { IfOk result (λ read. read.1.name.now ≡ certificate.now) }
    ensures ok { IfOk result (λ read. Happened S.read_gives S.holds S.faults store.old store.new
        (read_of (schema triple.entry.input.now) read.0.input ∷ read_of
        (schema triple.entry.output.now) read.0.output
        ∷ read_of (plain triple.entry.sheet.now) read.0.sheet ∷ read_of
        (plain certificate.now) read.1 ∷ [])) }
    ensures err { IfErr result (λ unread. (reads : List Read)
        × Happened S.read_gives S.holds S.faults store.old store.new reads
        × IsFirstUnread
        (schema triple.entry.input.now ∷ schema triple.entry.output.now ∷ plain
        triple.entry.sheet.now ∷ plain certificate.now ∷ []) reads unread) }
{
    let operands = read_triple(alloc, triple, store)?;
    let certificate = read_operand(alloc, Source::plain(certificate), store)?;
    Ok((operands, certificate))
}

/// Reads two operands, in order.
pub fn read_pair<'w, S: Store>(
    alloc: Global,
    first: Source<'w>,
    second: Source<'w>,
    store: &mut S,
) -> Result<(Operand<'w>, Operand<'w>), Unread<'w>>
    ensures same { S.holds store.new ≡ S.holds store.old }
    ensures count { S.faults store.old ≤ S.faults store.new }
    ensures first { IfOk result (λ read. read.0.name.now ≡ first.entry.word.now) }
    ensures second { IfOk result (λ read. read.1.name.now ≡ second.entry.word.now) }
    ensures ok { IfOk result (λ read. Happened S.read_gives S.holds S.faults store.old store.new
        (read_of (source first.entry) read.0 ∷ read_of (source second.entry) read.1 ∷ [])) }
    ensures err { IfErr result (λ unread. (reads : List Read)
        × Happened S.read_gives S.holds S.faults store.old store.new reads
        × IsFirstUnread (source first.entry ∷ source second.entry ∷ []) reads unread) }
{
    let one = read_operand(alloc, first, store)?;
    let other = read_operand(alloc, second, store)?;
    Ok((one, other))
}

/// Reads one operand.
pub fn read_operand<'w, S: Store>(
    alloc: Global,
    named: Source<'w>,
    store: &mut S,
) -> Result<Operand<'w>, Unread<'w>>
    ensures same { S.holds store.new ≡ S.holds store.old }
    ensures count { S.faults store.old ≤ S.faults store.new }
    ensures named { IfOk result (λ operand. operand.name.now ≡ named.entry.word.now) }
    ensures ok { IfOk result
        (λ operand. Happened S.read_gives S.holds S.faults store.old store.new
        (read_of (source named.entry) operand ∷ [])) }
    ensures err { IfErr result
        (λ unread. (fault : StoreFault)
        × Happened S.read_gives S.holds S.faults store.old store.new
        ((named.entry.file.now, Err fault) ∷ [])
        × IsUnread named.entry.word.now fault unread) }
{
    let name = named.word;
    match store.read(alloc, named.file) {
        Ok(text) => Ok(Operand { name, text }),
        Err(fault) => Err(why_unread(name, fault)),
    }
}

/// Why the operand of this word was not read, by the fault of its read.
fn why_unread(word: &str, fault: StoreFault) -> Unread<'_>
    ensures { IsUnread word.now fault result }
{
    match fault {
        StoreFault::Missing | StoreFault::Failed => Unread::Unreadable(word),
        StoreFault::TooLong => Unread::TooLong,
        StoreFault::NoMemory => Unread::NoMemory,
    }
}
