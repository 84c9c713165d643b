// Targets of processing instructions, and which CDATA section is white space alone (XML 1.0, 2.3, 2.6 and 2.7).
ghost use Rattle.std.specs.Prelude.{◌≡◌, ◌≤◌, ◌+◌, ◌-◌, ◌++◌, ℕ, List, Option, None, Some, length, replicate, take};
ghost use Rattle.std.specs.List.{list_all};
ghost use Rattle.tc_base.specs.Characters as class;
ghost use Rattle.tc_stream.specs.Targets as scan;
ghost use Rattle.tc_stream.specs.Targeting.{IsTargeting, Keeps, TellsTargeted};

use crate::words::Word;
use tc_base::is_white;
use tc_scan::{is_ncname_char, is_ncname_start};

/// What a character makes of the target of a processing instruction.
#[derive(Clone, Copy)]
pub(crate) enum Targeted {
    /// It goes on.
    More(Word),
    /// It has ended, and white space follows it.
    White(Word),
    /// It has ended, and a question mark follows it.
    Question(Word),
    /// There is no such target.
    Malformed,
}

/// What the first character makes of a target.
fn first_of_target(next: char) -> Targeted
    ensures { TellsTargeted result (scan.targeted_next None next) }
{
    if is_ncname_start(next) {
        Targeted::More(Word::none().and(next))
    } else {
        Targeted::Malformed
    }
}

/// What the character behind some characters makes of a target.
fn behind_target(name: Word, next: char) -> Targeted
    ensures { (written : List ℕ) → Keeps name written
        → TellsTargeted result (scan.targeted_next (Some written) next) }
{
    if is_ncname_char(next) {
        return Targeted::More(name.and(next));
    }
    if is_white(next) {
        return Targeted::White(name);
    }
    if next == '?' {
        return Targeted::Question(name);
    }
    Targeted::Malformed
}

/// What the next character makes of a target of which so much has come, or nothing.
pub(crate) fn next_of_target(target: Option<Word>, next: char) -> Targeted
    ensures { (state : Option (List ℕ)) → IsTargeting target state
        → TellsTargeted result (scan.targeted_next state next) }
{
    match target {
        Some(name) => behind_target(name, next),
        None => first_of_target(next),
    }
}

/// Whether all bytes are white space.
pub(crate) fn are_white(bytes: &[u8]) -> bool
    ensures { result ≡ list_all class.is_white bytes.now }
{
    bytes.iter().all(|byte| is_white(*byte as char))
}

/// Whether what stands in a CDATA section is white space alone, as far as it is known: so many closing brackets and a
/// text, but for so many bytes at its end.
pub(crate) fn is_section_white(brackets: u8, text: &[u8], left: usize) -> bool
    ensures { result ≡ list_all class.is_white
        (take ((brackets + length text.now) - left) (replicate brackets 0x5D ++ text.now)) }
{
    let all = brackets as usize + text.len();
    if all <= left {
        return true;
    }
    if brackets > 0 {
        return false;
    }
    are_white(&text[..text.len() - left])
}
