// The commands, and how the words of a command line give them.
ghost use Rattle.std.specs.Prelude.{◌≡◌, ◌≤◌, ◌↔◌, ℕ, List, [], ◌∷◌, Option, false, length, IsTrue, MatchOption, codes, if◌then◌else◌};
ghost use Rattle.std.specs.List.{list_all};
ghost use Rattle.tc_answer.specs.Words.{IsNumeral, Words, AreOperands, AreSchemas, IsNoCommand, is_operand};
ghost use Rattle.tc_answer.specs.Numbered.{Numbered};
ghost use Rattle.tc_answer.specs.WordsSeen.{texts, command};
ghost use Rattle.tc_answer.specs.declared.limits.TheConstants.{LARGEST_PIECE};

use crate::limits::{LARGEST_PIECE, MOST_DEMO};
use crate::sources::is_schema_word;
use tc_base::limits::GREATEST_LIMIT;

/// The operands of a check: the names of two schemas and a stylesheet.
#[derive(Clone, Copy)]
pub struct Triple<'w> {
    pub input: &'w str,
    pub output: &'w str,
    pub sheet: &'w str,
}

/// A command with its operands.
#[derive(Clone, Copy)]
pub enum Command<'w> {
    /// Decide whether the stylesheet is safe, with so many trees and hedges at most where that is said.
    Check(Option<u32>, Triple<'w>),
    /// Write a certificate of safety, with the same limit.
    Prove(Option<u32>, Triple<'w>),
    /// Verify the certificate of this name.
    Verify(Triple<'w>, &'w str),
    /// Run a stylesheet on a document.
    Run(&'w str, &'w str),
    /// Tell whether a document is valid for a schema.
    Valid(&'w str, &'w str),
    /// Tell whether a document that comes in pieces of so many bytes, from 1 to 65,536, the last one perhaps shorter, is
    /// valid for a schema.
    ValidInPieces(u32, &'w str, &'w str),
    /// Check an example of this size.
    Demo(u32),
    /// Write the certificate of this name in version 2, whichever version it is in.
    Upgrade(&'w str),
    /// Tell which rules, named bodies and branches of a stylesheet no document instantiates that is valid for a schema.
    Dead(&'w str, &'w str),
    /// Tell whether each document that is valid for the first schema is valid for the second.
    Include(&'w str, &'w str),
    /// Tell whether the same documents are valid for two schemas.
    Same(&'w str, &'w str),
}

/// The command that the words give. It takes no memory.
pub fn read_words(words: &[String]) -> Option<Command<'_>>
    ensures { MatchOption result (IsNoCommand (texts words.now))
        (λ c. Words (texts words.now) (command c)) }
{
    let (name, rest) = words.split_first()?;
    match name.as_str() {
        "check" => read_check(rest, false),
        "prove" => read_check(rest, true),
        "verify" => read_verify(rest),
        "run" => {
            let (sheet, document) = read_pair(rest)?;
            Some(Command::Run(sheet, document))
        }
        "valid" => read_valid(rest),
        "demo" => read_demo(rest),
        "upgrade" => read_upgrade(rest),
        "dead" => read_dead(rest),
        "include" => read_inclusion(rest, false),
        "same" => read_inclusion(rest, true),
        _ => None,
    }
}

/// A check, or, where it `proves`, the same with a certificate: the limit, and the operands.
fn read_check(words: &[String], proves: bool) -> Option<Command<'_>>
    ensures { MatchOption result
        (IsNoCommand ((if proves then codes "prove" else codes "check") ∷ texts words.now))
        (λ c. Words ((if proves then codes "prove" else codes "check") ∷ texts words.now)
        (command c)) }
{
    let (limit, operands) = read_option(words, "--limit", GREATEST_LIMIT)?;
    let triple = read_triple(operands)?;
    if proves {
        Some(Command::Prove(limit, triple))
    } else {
        Some(Command::Check(limit, triple))
    }
}

/// A demonstration: its size, and nothing else.
fn read_demo(words: &[String]) -> Option<Command<'_>>
    ensures { MatchOption result (IsNoCommand (codes "demo" ∷ texts words.now))
        (λ c. Words (codes "demo" ∷ texts words.now) (command c)) }
{
    let (numeral, rest) = words.split_first()?;
    if !rest.is_empty() {
        return None;
    }
    let size = read_number(numeral.as_str(), MOST_DEMO)?;
    Some(Command::Demo(size))
}

/// A validation: of a document that comes in pieces, where their size stands before the operands, or of a whole one.
fn read_valid(words: &[String]) -> Option<Command<'_>>
    ensures { MatchOption result (IsNoCommand (codes "valid" ∷ texts words.now))
        (λ c. Words (codes "valid" ∷ texts words.now) (command c)) }
{
    let (size, operands) = read_option(words, "--stream", LARGEST_PIECE)?;
    let (schema, document) = read_pair(operands)?;
    if !is_schema_word(schema) {
        return None;
    }
    match size {
        Some(size) => Some(Command::ValidInPieces(size, schema, document)),
        None => Some(Command::Valid(schema, document)),
    }
}

/// The number before the operands, where this mark stands before it, and the operands.
fn read_option<'w>(
    words: &'w [String],
    mark: &str,
    most: u32,
) -> Option<(Option<u32>, &'w [String])>
    requires mark { is_operand mark.now ≡ false }
    requires most { most ≤ LARGEST_PIECE }
    ensures { MatchOption result
        ((number : Option ℕ) (operands : List (List ℕ))
        → Numbered mark.now most (texts words.now) number operands → AreOperands operands → ⊥)
        (λ read. Numbered mark.now most (texts words.now) read.0 (texts read.1.now)
        × ((number : Option ℕ) (operands : List (List ℕ))
        → Numbered mark.now most (texts words.now) number operands → AreOperands operands
        → operands ≡ texts read.1.now)) }
{
    let Some((option, rest)) = words.split_first() else {
        return Some((None, words));
    };
    if option.as_str() != mark {
        return Some((None, words));
    }
    let (numeral, operands) = rest.split_first()?;
    let number = read_number(numeral.as_str(), most)?;
    Some((Some(number), operands))
}

/// Three operands, the first two schemas.
fn read_triple(words: &[String]) -> Option<Triple<'_>>
    ensures { MatchOption result
        ((a b c : List ℕ) → texts words.now ≡ a ∷ b ∷ c ∷ [] → AreOperands (texts words.now)
        → AreSchemas (a ∷ b ∷ []) → ⊥)
        (λ t. (texts words.now ≡ t.input.now ∷ t.output.now ∷ t.sheet.now ∷ [])
        × AreOperands (texts words.now)
        × AreSchemas (t.input.now ∷ t.output.now ∷ [])) }
{
    if !are_operands(words, 3) {
        return None;
    }
    let input = words[0].as_str();
    let output = words[1].as_str();
    if !are_schemas(input, output) {
        return None;
    }
    Some(Triple {
        input,
        output,
        sheet: words[2].as_str(),
    })
}

/// A verification: three operands, the first two schemas, and then the name of a certificate.
fn read_verify(words: &[String]) -> Option<Command<'_>>
    ensures { MatchOption result (IsNoCommand (codes "verify" ∷ texts words.now))
        (λ c. Words (codes "verify" ∷ texts words.now) (command c)) }
{
    if !are_operands(words, 4) {
        return None;
    }
    let input = words[0].as_str();
    let output = words[1].as_str();
    if !are_schemas(input, output) {
        return None;
    }
    let triple = Triple {
        input,
        output,
        sheet: words[2].as_str(),
    };
    Some(Command::Verify(triple, words[3].as_str()))
}

/// An upgrade: the name of a certificate.
fn read_upgrade(words: &[String]) -> Option<Command<'_>>
    ensures { MatchOption result (IsNoCommand (codes "upgrade" ∷ texts words.now))
        (λ c. Words (codes "upgrade" ∷ texts words.now) (command c)) }
{
    if !are_operands(words, 1) {
        return None;
    }
    Some(Command::Upgrade(words[0].as_str()))
}

/// What asks for dead spots: a schema, and the name of a stylesheet.
fn read_dead(words: &[String]) -> Option<Command<'_>>
    ensures { MatchOption result (IsNoCommand (codes "dead" ∷ texts words.now))
        (λ c. Words (codes "dead" ∷ texts words.now) (command c)) }
{
    let (input, sheet) = read_pair(words)?;
    if !is_schema_word(input) {
        return None;
    }
    Some(Command::Dead(input, sheet))
}

/// Two operands.
fn read_pair(words: &[String]) -> Option<(&str, &str)>
    ensures { MatchOption result
        ((a b : List ℕ) → texts words.now ≡ a ∷ b ∷ [] → AreOperands (texts words.now) → ⊥)
        (λ p. (texts words.now ≡ p.0.now ∷ p.1.now ∷ []) × AreOperands (texts words.now)) }
{
    if !are_operands(words, 2) {
        return None;
    }
    Some((words[0].as_str(), words[1].as_str()))
}

/// An inclusion, or, where it goes both ways, an equality: two schemas.
fn read_inclusion(words: &[String], both_ways: bool) -> Option<Command<'_>>
    ensures { MatchOption result
        (IsNoCommand ((if both_ways then codes "same" else codes "include") ∷ texts words.now))
        (λ c. Words ((if both_ways then codes "same" else codes "include") ∷ texts words.now)
        (command c)) }
{
    let (first, second) = read_pair(words)?;
    if !are_schemas(first, second) {
        return None;
    }
    if both_ways {
        Some(Command::Same(first, second))
    } else {
        Some(Command::Include(first, second))
    }
}

/// Whether both words may stand in a schema's place.
fn are_schemas(first: &str, second: &str) -> bool
    ensures { IsTrue result ↔ AreSchemas (first.now ∷ second.now ∷ []) }
{
    is_schema_word(first) && is_schema_word(second)
}

/// Whether the words are so many operands.
fn are_operands(words: &[String], count: usize) -> bool
    ensures { IsTrue result ↔ ((length words.now ≡ count) × AreOperands (texts words.now)) }
{
    words.len() == count && words.iter().all(|word| is_operand(word.as_str()))
}

/// Whether the word isn't empty and doesn't begin with `-`.
fn is_operand(word: &str) -> bool
    ensures { result ≡ is_operand word.now }
{
    match word.as_bytes().first() {
        Some(first) => *first != b'-',
        None => false,
    }
}

/// The number from 1 to `most` that the word spells, in decimal digits without a leading zero.
fn read_number(word: &str, most: u32) -> Option<u32>
    requires { most ≤ LARGEST_PIECE }
    ensures { MatchOption result ((number : ℕ) → IsNumeral most word.now number → ⊥)
        (IsNumeral most word.now) }
{
    let digits = word.as_bytes();
    if digits.first() == Some(&b'0') {
        return None;
    }
    let mut value = 0;
    for digit in digits {
        if !digit.is_ascii_digit() {
            return None;
        }
        value = value * 10 + u32::from(*digit - b'0');
        if most < value {
            return None;
        }
    }
    if value == 0 {
        return None;
    }
    Some(value)
}
