// The pieces of a document: a cut between two of them may part a character (RFC 3629, 4).
ghost use Rattle.std.specs.Prelude.{◌≡◌, ◌<◌, ◌≤◌, ◌+◌, ◌++◌, ◌↔◌, ℕ, List, [], length, slice_index, IfOk, IfErr, OnErr, IsTrue};
ghost use Rattle.tc_base.specs.declared.limits.TheConstants.{LONGEST_FILE};
ghost use Rattle.tc_model.specs.Grammars as g;
ghost use Rattle.tc_model.specs.Names.{IsChars};
ghost use Rattle.tc_model.specs.RawTrees.{RawTrees};
ghost use Rattle.tc_model.specs.SimplifiesLaws.{IsStart};
ghost use Rattle.tc_model.specs.Stripped.{stripped};
ghost use Rattle.tc_model.specs.Validity.{IsValid};
ghost use Rattle.tc_stream.specs.Cuts.{BeginsNoChar, char_length, cut_bytes};
ghost use Rattle.tc_stream.specs.Faults.{IsFaultOf, IsFaultOfFront};
ghost use Rattle.tc_stream.specs.Pieces.{IsCutShort, ReadsPiece};
ghost use Rattle.tc_stream.specs.Stands.{IsReading, ReadsTo};
ghost use Rattle.tc_stream.specs.XmlTextMeasures.{IsGood};

use crate::characters::{Front, cut_off, front_of, length_from};
use crate::cuts::Cut;
use crate::faults::StreamFault;
use crate::reader::Reader;
use tc_scan::characters;

/// Keeps bytes with which no character begins, which stand at a place: the first ones of one that is cut off, if they
/// are fewer than the first one says.
fn take_behind(
    reader: &mut Reader<'_>,
    cut: &mut Cut,
    place: u32,
    bytes: &[u8],
) -> Result<(), StreamFault>
    requires ready { IsReading reader.old }
    requires none { cut_bytes cut.old ≡ [] }
    requires low { place ≤ LONGEST_FILE }
    ensures ready { IfOk result (λ _. IsReading reader.new) }
    ensures within { length (cut_bytes cut.new) ≤ length bytes.now }
    ensures short { IsCutShort (cut_bytes cut.new) }
    ensures none { OnErr result (cut_bytes cut.new ≡ []) }
    ensures ok { (x : g.Grammar) (chars : List ℕ) → ReadsTo x reader.old chars
        → IfOk result (λ _. ReadsPiece x reader.new (cut_bytes cut.new) (chars ++ bytes.now)) }
    ensures fault { (x : g.Grammar) (chars : List ℕ) → length chars ≡ place
        → BeginsNoChar bytes.now → ReadsTo x reader.old chars
        → IfErr result (λ e. IsFaultOfFront (chars ++ bytes.now) e) }
{
    if bytes.is_empty() {
        return Ok(());
    }
    match cut_off(bytes) {
        Some(begun) => {
            *cut = begun;
            Ok(())
        }
        None => Err(reader.stopped(place)),
    }
}

/// Takes bytes behind whole characters, which stand at a place.
#[tactic(auto, using(crate::proofs::PieceLaws::front_within))]
fn take_whole(
    reader: &mut Reader<'_>,
    cut: &mut Cut,
    at: u32,
    bytes: &[u8],
) -> Result<(), StreamFault>
    requires ready { IsReading reader.old }
    requires none { cut_bytes cut.old ≡ [] }
    requires room { at + length bytes.now ≤ LONGEST_FILE }
    ensures ready { IfOk result (λ _. IsReading reader.new) }
    ensures within { length (cut_bytes cut.new) ≤ length bytes.now }
    ensures short { IsCutShort (cut_bytes cut.new) }
    ensures none { OnErr result (cut_bytes cut.new ≡ []) }
    ensures ok { (x : g.Grammar) (chars : List ℕ) → length chars ≡ at → ReadsTo x reader.old chars
        → IfOk result (λ _. ReadsPiece x reader.new (cut_bytes cut.new) (chars ++ bytes.now)) }
    ensures fault { (x : g.Grammar) (chars : List ℕ) → length chars ≡ at
        → ReadsTo x reader.old chars
        → IfErr result (λ e. IsFaultOfFront (chars ++ bytes.now) e) }
{
    let text = characters(bytes);
    let count = text.len();
    let end = at + count as u32;
    reader.read_all(text, end)?;
    take_behind(reader, cut, end, &bytes[count..])
}

/// How many bytes a character lacks of which these are the first ones.
fn lacking(known: &[u8]) -> usize
    requires some { 0 < length known.now }
    requires short { length known.now < char_length (slice_index known.now 0) }
    ensures all { length known.now + result ≡ char_length (slice_index known.now 0) }
    ensures few { length known.now + result ≤ 4 }
{
    length_from(known[0]) - known.len()
}

/// The first bytes of a character with more of its bytes behind them, at most four together.
fn joined(cut: Cut, more: &[u8]) -> Cut
    requires { length (cut_bytes cut) + length more.now ≤ 4 }
    ensures { cut_bytes result ≡ cut_bytes cut ++ more.now }
{
    let mut all = cut;
    for byte in more {
        all = all.with(*byte);
    }
    all
}

/// Takes a character that stands at a place, and the bytes behind it.
fn take_joined(
    reader: &mut Reader<'_>,
    cut: &mut Cut,
    at: u32,
    text: &str,
    bytes: &[u8],
) -> Result<(), StreamFault>
    requires ready { IsReading reader.old }
    requires none { cut_bytes cut.old ≡ [] }
    requires room { at + length text.now + length bytes.now ≤ LONGEST_FILE }
    ensures ready { IfOk result (λ _. IsReading reader.new) }
    ensures within { length (cut_bytes cut.new) ≤ length bytes.now }
    ensures short { IsCutShort (cut_bytes cut.new) }
    ensures none { OnErr result (cut_bytes cut.new ≡ []) }
    ensures ok { (x : g.Grammar) (chars : List ℕ) → IsChars text.now → length chars ≡ at
        → ReadsTo x reader.old chars
        → IfOk result
        (λ _. ReadsPiece x reader.new (cut_bytes cut.new) ((chars ++ text.now) ++ bytes.now)) }
    ensures fault { (x : g.Grammar) (chars : List ℕ) → IsChars text.now → length chars ≡ at
        → ReadsTo x reader.old chars
        → IfErr result (λ e. IsFaultOfFront ((chars ++ text.now) ++ bytes.now) e) }
{
    let count = text.len();
    let end = at + count as u32;
    reader.read_all(text, end)?;
    take_whole(reader, cut, end, bytes)
}

/// Takes bytes behind the first ones of a character that is cut off, which stands at a place.
fn take_cut(
    reader: &mut Reader<'_>,
    cut: &mut Cut,
    at: u32,
    bytes: &[u8],
) -> Result<(), StreamFault>
    requires ready { IsReading reader.old }
    requires some { 0 < length (cut_bytes cut.old) }
    requires short { IsCutShort (cut_bytes cut.old) }
    requires room { at + length (cut_bytes cut.old) + length bytes.now ≤ LONGEST_FILE }
    ensures ready { IfOk result (λ _. IsReading reader.new) }
    ensures within { length (cut_bytes cut.new) ≤ length (cut_bytes cut.old) + length bytes.now }
    ensures short { IsCutShort (cut_bytes cut.new) }
    ensures kept { OnErr result (length (cut_bytes cut.new) ≤ length (cut_bytes cut.old)) }
    ensures ok { (x : g.Grammar) (chars : List ℕ) → length chars ≡ at → ReadsTo x reader.old chars
        → IfOk result
        (λ _. ReadsPiece x reader.new (cut_bytes cut.new)
        ((chars ++ cut_bytes cut.old) ++ bytes.now)) }
    ensures fault { (x : g.Grammar) (chars : List ℕ) → length chars ≡ at
        → ReadsTo x reader.old chars
        → IfErr result (λ e. IsFaultOfFront ((chars ++ cut_bytes cut.old) ++ bytes.now) e) }
{
    let begun = *cut;
    let missing = lacking(begun.bytes());
    let (front, rest) = bytes.split_at(missing.min(bytes.len()));
    let all = joined(begun, front);
    match front_of(all.bytes()) {
        Front::Whole(text) => {
            *cut = Cut::none();
            take_joined(reader, cut, at, text, rest)
        }
        Front::Short => {
            *cut = all;
            Ok(())
        }
        Front::Bad => Err(reader.stopped(at)),
    }
}

/// Takes a piece, before which so many bytes have come.
pub(crate) fn take(
    reader: &mut Reader<'_>,
    cut: &mut Cut,
    fed: u32,
    piece: &[u8],
) -> Result<(), StreamFault>
    requires ready { IsReading reader.old }
    requires within { length (cut_bytes cut.old) ≤ fed }
    requires short { IsCutShort (cut_bytes cut.old) }
    requires room { fed + length piece.now ≤ LONGEST_FILE }
    ensures ready { IfOk result (λ _. IsReading reader.new) }
    ensures within { length (cut_bytes cut.new) ≤ fed + length piece.now }
    ensures short { IsCutShort (cut_bytes cut.new) }
    ensures kept { OnErr result (length (cut_bytes cut.new) ≤ fed) }
    ensures ok { (x : g.Grammar) (chars : List ℕ) → length chars + length (cut_bytes cut.old) ≡ fed
        → ReadsTo x reader.old chars
        → IfOk result
        (λ _. ReadsPiece x reader.new (cut_bytes cut.new)
        ((chars ++ cut_bytes cut.old) ++ piece.now)) }
    ensures fault { (x : g.Grammar) (chars : List ℕ) → length chars + length (cut_bytes cut.old)
        ≡ fed → ReadsTo x reader.old chars
        → IfErr result (λ e. IsFaultOfFront ((chars ++ cut_bytes cut.old) ++ piece.now) e) }
{
    let known = cut.bytes().len() as u32;
    if known == 0 {
        return take_whole(reader, cut, fed, piece);
    }
    let at = fed - known;
    take_cut(reader, cut, at, piece)
}

/// The end of a text at a place.
pub(crate) fn finished(reader: &mut Reader<'_>, cut: Cut, fed: u32) -> Result<bool, StreamFault>
    requires within { length (cut_bytes cut) ≤ fed }
    requires room { fed ≤ LONGEST_FILE }
    ensures ok { (x : g.Grammar) (chars : List ℕ) → IsStart x.start
        → length chars + length (cut_bytes cut) ≡ fed → ReadsTo x reader.old chars
        → IfOk result
        (λ b. (h : RawTrees) × IsGood (chars ++ cut_bytes cut) h
        × (IsTrue b ↔ IsValid x (stripped h))) }
    ensures fault { (x : g.Grammar) (chars : List ℕ) → length chars + length (cut_bytes cut) ≡ fed
        → BeginsNoChar (cut_bytes cut) → ReadsTo x reader.old chars
        → IfErr result (λ e. IsFaultOf (chars ++ cut_bytes cut) e) }
{
    let left = cut.bytes().len() as u32;
    if left == 0 && reader.is_at_end() {
        return Ok(reader.elements.is_valid());
    }
    let place = fed - left;
    Err(reader.stopped(place))
}
