// The rules that were found for letters: some of them are remembered, since many nodes have the same letter.
ghost use Rattle.std.specs.Prelude.{◌≡◌, ◌<◌, true, List, length, IfOk, IfSome};
ghost use Rattle.tc_model.specs.Symbols.{Mention};
ghost use Rattle.tc_rules.specs.Kept.{IsRulesOf, told};
ghost use Rattle.tc_rules.specs.KnownRules.{IsFound, AreKnown};
ghost use Rattle.tc_rules.specs.RulesView.{RulesView};

use crate::rules::{Found, Kind, Marks, Rules};
use tc_base::NoMemory;

/// How many rules that were found are remembered.
const REMEMBERED: usize = 4096;

/// A mode, an ancestor state and a letter, and the rule that was found for them.
#[derive(Clone, Copy)]
struct Known {
    mode: u32,
    ancestor: u32,
    kind: Kind,
    marks: Marks,
    found: Found,
}

/// Some of the rules that were found. What was found is forgotten where something else comes to its place, and no clause says
/// that anything is remembered: what is remembered was found, so no answer depends on it.
#[derive(Drop)]
pub struct KnownRules {
    places: Vec<Option<Known>>,
}

/// Where the rule of a mode, an ancestor state and a letter is remembered.
fn place_of(mode: u32, ancestor: u32, kind: Kind, marks: Marks) -> usize
    ensures { result < 4096 }
{
    let symbol = match kind {
        Kind::Elem(sym) => sym.0 as usize + 1,
        Kind::Text => 0,
    };
    (symbol * 71 + ancestor as usize + mode as usize * 1021 + marks.0 as usize * 389) % REMEMBERED
}

/// True only of kinds that are the same.
fn same_kind(a: Kind, b: Kind) -> bool
    ensures { result ≡ true → a ≡ b }
{
    match (a, b) {
        (Kind::Elem(a), Kind::Elem(b)) => a.0 == b.0,
        (Kind::Text, Kind::Text) => true,
        _ => false,
    }
}

impl KnownRules {
    /// None is remembered.
    ///
    /// # Errors
    ///
    /// There is no memory for what will be remembered, where the tables of the rules lie.
    pub fn new(rules: &Rules<'_>) -> Result<KnownRules, NoMemory>
        ensures { IfOk result
            (λ k. (symbols : List Mention) (v : RulesView) → AreKnown symbols v k) }
    {
        let alloc = *rules.modes.allocator();
        let places = vec![in alloc; None; REMEMBERED]?;
        Ok(KnownRules { places })
    }

    /// The rule in a mode of a node of a letter, the ancestor state of the node above it being given, if it is remembered.
    fn remembered(&self, mode: u32, ancestor: u32, kind: Kind, marks: Marks) -> Option<Found>
        ensures { (symbols : List Mention) (v : RulesView) → AreKnown symbols v self.now
            → IfSome result (λ f. IsFound symbols v mode ancestor kind marks f) }
    {
        let place = place_of(mode, ancestor, kind, marks);
        if place >= self.places.len() {
            return None;
        }
        let known = self.places[place]?;
        if known.mode == mode
            && known.ancestor == ancestor
            && same_kind(known.kind, kind)
            && known.marks.0 == marks.0
        {
            Some(known.found)
        } else {
            None
        }
    }

    /// Remembers the rule that was found.
    fn remember(&mut self, mode: u32, ancestor: u32, kind: Kind, marks: Marks, found: Found)
        ensures { (symbols : List Mention) (v : RulesView) → AreKnown symbols v self.old
            → IsFound symbols v mode ancestor kind marks found → AreKnown symbols v self.new }
    {
        let place = place_of(mode, ancestor, kind, marks);
        if place >= self.places.len() {
            return;
        }
        self.places[place] = Some(Known {
            mode,
            ancestor,
            kind,
            marks,
            found,
        });
    }

    /// The rule in a mode of a node of a letter, the ancestor state of the node above it being given (XSLT 1.0, 5.5).
    pub fn rule_for(
        &mut self,
        rules: &Rules<'_>,
        mode: u32,
        ancestor: u32,
        kind: Kind,
        marks: Marks,
    ) -> Found
        requires mode { mode < (told rules.now).sheet.modes }
        requires state { ancestor < length (told rules.now).ancestors.states }
        ensures known { (symbols : List Mention) → IsRulesOf symbols rules.now
            → AreKnown symbols (told rules.now) self.old
            → AreKnown symbols (told rules.now) self.new }
        ensures rule { (symbols : List Mention) → IsRulesOf symbols rules.now
            → AreKnown symbols (told rules.now) self.old
            → IsFound symbols (told rules.now) mode ancestor kind marks result }
    {
        if let Some(found) = self.remembered(mode, ancestor, kind, marks) {
            return found;
        }
        let found = rules.rule_for(mode, ancestor, kind, marks);
        self.remember(mode, ancestor, kind, marks, found);
        found
    }
}
