// The elements that are open: their names, the prefixes in scope, and the validity of what has come.
ghost use Rattle.std.specs.Prelude.{◌≡◌, ◌↔◌, ◌<◌, ◌≤◌, ◌+◌, ◌++◌, ◌∷◌, ℕ, List, [], true, false, length, IfOk, IfErr, OnOk, OnSome, IsTrue, IsFalse, MatchOption, codes, vec_capacity};
ghost use Rattle.tc_auto.specs.Stands as a;
ghost use Rattle.tc_base.specs.declared.limits.TheConstants.{DEEPEST_NESTING, LONGEST_TAG, MOST_NAMES};
ghost use Rattle.tc_base.specs.declared.reasons.Why.{Why as Reason};
ghost use Rattle.tc_model.specs.Grammars as g;
ghost use Rattle.tc_model.specs.Names.{IsChars};
ghost use Rattle.tc_model.specs.RawTrees.{Bound};
ghost use Rattle.tc_model.specs.Sheets.{Sheet};
ghost use Rattle.tc_model.specs.States as s;
ghost use Rattle.tc_model.specs.Symbols.{symbols_of};
ghost use Rattle.tc_model.specs.Trees.{beside, is_white_space_only, kept, none};
ghost use Rattle.tc_model.specs.XmlTextNames.{QNameAt, QualifiedName};
ghost use Rattle.tc_model.specs.XmlTextRefusals.{TagRefuses};
ghost use Rattle.tc_model.specs.XmlTextScopes.{first_scope};
ghost use Rattle.tc_steps.specs.Led.{IsStarted};
ghost use Rattle.tc_tags.specs.Forms.{FormRead, IsNameAt, OnMalformed, Refuses, UnsupportedAt};
ghost use Rattle.tc_stream.specs.Goes as goes;
ghost use Rattle.tc_tags.specs.Scoped.{chains_in};
ghost use Rattle.tc_tags.specs.Written.{AreWritten};
ghost use Rattle.tc_tags.specs.XmlTextTags.{TagFormAt, WrittenElement, written_length};

use std::alloc::Global;
use tc_alpha::Alphabet;
use tc_auto::Auto;
use tc_base::NoMemory;
use tc_base::limits::DEEPEST_NESTING;
use tc_steps::Validity;
use tc_tags::{Form, NoForm, Rooms, Span, WrittenName, form_of};

/// How many elements may stand within one another.
const DEEPEST: usize = DEEPEST_NESTING as usize;

/// An element that is open: its name as it is written, and how many names and declarations there were before it.
#[derive(Clone, Copy)]
struct Level {
    name: Span,
    names: usize,
    declared: usize,
}

/// Where the name of a tag stands as it is written, its colon with it: behind the `<`.
fn whole(tag: &str, name: &WrittenName) -> Span
    ensures start { result.start ≡ 1 }
    ensures length { (n : QualifiedName) → IsNameAt tag.now name.now n → result.length
        ≡ written_length n }
{
    let bytes = tag.as_bytes();
    let prefix = name.prefix.of(bytes);
    let local = name.local.of(bytes);
    if prefix == b"".as_slice() {
        return Span {
            start: 1,
            length: local.len(),
        };
    }
    Span {
        start: 1,
        length: prefix.len() + 1 + local.len(),
    }
}

/// Why a tag whose form is read is given up.
#[derive(Clone, Copy)]
pub(crate) enum NoElement {
    Malformed,
    NamesTooLong,
}

/// The elements that are open, the innermost one last, and the validity of what has come.
#[derive(Drop)]
pub(crate) struct Elements<'h> {
    validity: Validity<'h>,
    rooms: Rooms,
    levels: Vec<Level>,
    ghost most: { rooms.names.most ≡ MOST_NAMES },
    ghost room: { DEEPEST_NESTING ≤ vec_capacity levels },
    ghost all_levels: { length validity.levels.items ≡ DEEPEST_NESTING },
    ghost depth: { validity.depth ≡ length levels.items },
}

impl<'h> Elements<'h> {
    ghost use Rattle.tc_stream.specs.Keeps.{AreSteps, Enters, GoesInto, IsMeaningless, IsReady, IsRefused, IsUnnamed, Keeps, NoStart, Starts, written_bytes};
    ghost use Rattle.tc_stream.specs.Named.{GoesNamed, IsNameAlone, alone, local_name};

    /// No element is open.
    pub(crate) fn new(
        alloc: Global,
        auto: &'h Auto<'h>,
        alphabet: &'h Alphabet,
    ) -> Result<Elements<'h>, NoMemory>
        ensures keeps { IfOk result (λ r. Keeps r [] first_scope) }
        ensures steps { IfOk result
            (λ r. (x other : g.Grammar) (sheet : Sheet) → a.Stands s.input x auto.now
            → alphabet.now ≡ symbols_of x other sheet → AreSteps x r.validity [] []) }
    {
        let levels = Vec::with_capacity(alloc, DEEPEST)?;
        let rooms = Rooms::new(alloc)?;
        let validity = Validity::new(alloc, auto, alphabet, DEEPEST)?;
        Ok(Elements {
            validity,
            rooms,
            levels,
        })
    }

    /// A start tag or an empty-element tag by its form, whose attributes are left in the table; nothing else of what is
    /// kept changes.
    pub(crate) fn form(&mut self, tag: &str) -> Result<Form, NoForm>
        requires { length tag.now ≤ LONGEST_TAG }
        ensures names { self.new.rooms.names ≡ self.old.rooms.names }
        ensures scopes { self.new.rooms.scopes ≡ self.old.rooms.scopes }
        ensures levels { self.new.levels.items ≡ self.old.levels.items }
        ensures validity { self.new.validity ≡ self.old.validity }
        ensures keeps { (ls : List goes.Level) (scope : List Bound) → Keeps self.old ls scope
            → Keeps self.new ls scope }
        ensures ready { IsReady self.old → IsReady self.new }
        ensures ok { IfOk result (λ f. (e : WrittenElement) × FormRead tag.now f e
            × AreWritten tag.now self.new.rooms.attributes.list.items e.attributes) }
        ensures no { IfErr result (λ x. Refuses x
            ((e : WrittenElement) → TagFormAt true (length tag.now) tag.now e (codes ">") → ⊥)
            ((e : WrittenElement) → TagFormAt false (length tag.now) tag.now e (codes ">") → ⊥)) }
        ensures no_empty { IfErr result (λ x. Refuses x
            ((e : WrittenElement) → TagFormAt true (length tag.now) tag.now e (codes "/>") → ⊥)
            ((e : WrittenElement) → TagFormAt false (length tag.now) tag.now e (codes "/>") → ⊥)) }
        ensures stands { IfErr result (λ x. UnsupportedAt (length tag.now) x (TagRefuses tag.now)) }
        ensures malformed { IfErr result
            (λ x. OnMalformed x ((why : Reason) (at : List ℕ) → TagRefuses tag.now why at → ⊥)) }
    {
        form_of(tag, &mut self.rooms.attributes)
    }

    /// Whether no element may stand within those that are open.
    pub(crate) fn is_full(&self) -> bool
        ensures full { IsTrue result ↔ (length self.now.levels.items ≡ DEEPEST_NESTING) }
        ensures room { IsFalse result → length self.now.levels.items < DEEPEST_NESTING }
    {
        self.levels.len() == DEEPEST
    }

    /// Whether none is open.
    pub(crate) fn is_empty(&self) -> bool
        ensures { IsTrue result ↔ (length self.now.levels.items ≡ 0) }
    {
        self.levels.is_empty()
    }

    /// Whether the document whose root element has ended is valid.
    pub(crate) fn is_valid(&self) -> bool
        ensures { result ≡ self.now.validity.is_valid }
    {
        self.validity.is_valid()
    }

    /// The name of the innermost element as it is written.
    pub(crate) fn name(&self) -> &[u8]
        ensures written { (l : goes.Level) (ls : List goes.Level) (scope : List Bound)
            → Keeps self.now (l ∷ ls) scope → result.now ≡ written_bytes l.written.name }
        ensures named { (l : goes.Level) (ls : List goes.Level) (scope : List Bound)
            → Keeps self.now (l ∷ ls) scope → QNameAt result.now l.written.name [] }
    {
        match self.levels.last() {
            Some(level) => level.name.of(self.rooms.names.bytes()),
            None => &[],
        }
    }

    /// Takes characters that aren't white space alone.
    pub(crate) fn take_text(&mut self)
        ensures keeps { (ls : List goes.Level) (scope : List Bound) → Keeps self.old ls scope
            → Keeps self.new ls scope }
        ensures ready { IsReady self.old → IsReady self.new }
        ensures steps { (x : g.Grammar) (ls : List goes.Level) (run text : List ℕ)
            → IsFalse (is_white_space_only text) → AreSteps x self.old.validity ls run
            → AreSteps x self.new.validity ls (run ++ text) }
    {
        self.validity.take_text();
    }

    /// Goes into the element of a tag whose names and declarations stand behind those that there were before its level,
    /// if the tag means something.
    fn step_into(&mut self, tag: &str, name: &WrittenName, level: Level) -> Option<()>
        requires room { length self.old.levels.items < DEEPEST_NESTING }
        requires chained { self.old.rooms.scopes.chains.chains
            ≡ chains_in self.old.rooms.names.bytes.items self.old.rooms.scopes.declared.items }
        ensures names { self.new.rooms.names ≡ self.old.rooms.names }
        ensures scopes { self.new.rooms.scopes ≡ self.old.rooms.scopes }
        ensures levels { OnSome result
            (self.new.levels.items ≡ self.old.levels.items ++ level ∷ []) }
        ensures into { MatchOption result (IsMeaningless tag.now name.now level.declared self.old)
            (λ _. GoesInto tag.now name.now level.declared self.old self.new) }
    {
        let bytes = tag.as_bytes();
        if !self.rooms.are_meant(bytes, level.declared) {
            return None;
        }
        let Some(expanded) = self.rooms.expanded(bytes, name) else {
            return None;
        };
        self.validity.start(&expanded);
        let _is_pushed = self.levels.push(level).is_ok();
        Some(())
    }

    /// Goes into the element of a tag.
    fn enter(&mut self, tag: &str, form: &Form) -> Result<(), NoElement>
        requires ready { IsReady self.old }
        requires depth { length self.old.levels.items < DEEPEST_NESTING }
        requires written { (e : WrittenElement) × FormRead tag.now form.now e
            × AreWritten tag.now self.old.rooms.attributes.list.items e.attributes }
        ensures ready { OnOk result (IsReady self.new) }
        ensures enters { OnOk result
            ((e : WrittenElement) (ls : List goes.Level) (outer : List Bound)
            → FormRead tag.now form.now e
            → AreWritten tag.now self.old.rooms.attributes.list.items e.attributes
            → IsChars tag.now → Keeps self.old ls outer → Enters self.old self.new ls outer e) }
        ensures no { IfErr result (IsRefused tag.now form.now self.old) }
    {
        let names = self.rooms.names.len();
        let declared = self.rooms.scopes.len();
        let Some(name) = self.rooms.add_names(tag, whole(tag, &form.name)) else {
            return Err(NoElement::NamesTooLong);
        };
        let level = Level {
            name,
            names,
            declared,
        };
        let Some(()) = self.step_into(tag, &form.name, level) else {
            return Err(NoElement::Malformed);
        };
        Ok(())
    }

    /// Goes into an element of this local name, which is kept behind the names that there were before its level.
    fn step_named(&mut self, local: &str, level: Level)
        requires room { length self.old.levels.items < DEEPEST_NESTING }
        requires chained { self.old.rooms.scopes.chains.chains
            ≡ chains_in self.old.rooms.names.bytes.items self.old.rooms.scopes.declared.items }
        ensures rooms { self.new.rooms ≡ self.old.rooms }
        ensures levels { self.new.levels.items ≡ self.old.levels.items ++ level ∷ [] }
        ensures into { GoesNamed local.now self.old self.new }
    {
        let name = self.rooms.unprefixed(local);
        self.validity.start(&name);
        let _is_pushed = self.levels.push(level).is_ok();
    }

    /// Goes into the element of a tag that is this local name alone.
    pub(crate) fn enter_named(&mut self, local: &str) -> Result<(), NoElement>
        requires ready { IsReady self.old }
        requires depth { length self.old.levels.items < DEEPEST_NESTING }
        requires named { IsNameAlone local.now }
        ensures ready { OnOk result (IsReady self.new) }
        ensures enters { OnOk result ((ls : List goes.Level) (outer : List Bound)
            → Keeps self.old ls outer
            → Enters self.old self.new ls outer (alone (local_name local.now))) }
        ensures no { IfErr result (λ e. (ls : List goes.Level) (outer : List Bound)
            → Keeps self.old ls outer → NoStart e ls outer (alone (local_name local.now))) }
    {
        let names = self.rooms.names.len();
        let declared = self.rooms.scopes.len();
        if !self.rooms.names.push_all(local.as_bytes()) {
            return Err(NoElement::NamesTooLong);
        }
        let name = Span {
            start: names,
            length: local.len(),
        };
        let level = Level {
            name,
            names,
            declared,
        };
        self.step_named(local, level);
        Ok(())
    }

    /// Goes into an element with this tag, and out of it again where it is empty.
    pub(crate) fn start(&mut self, tag: &str, form: &Form) -> Result<(), NoElement>
        requires ready { IsReady self.old }
        requires depth { length self.old.levels.items < DEEPEST_NESTING }
        requires written { (e : WrittenElement) × FormRead tag.now form.now e
            × AreWritten tag.now self.old.rooms.attributes.list.items e.attributes }
        ensures ready { OnOk result (IsReady self.new) }
        ensures starts { OnOk result
            ((e : WrittenElement) (ls : List goes.Level) (outer : List Bound)
            → FormRead tag.now form.now e
            → AreWritten tag.now self.old.rooms.attributes.list.items e.attributes
            → IsChars tag.now → Keeps self.old ls outer
            → Starts self.old self.new ls outer e form.now.is_empty) }
        ensures no { IfErr result (IsRefused tag.now form.now self.old) }
    {
        self.enter(tag, form)?;
        if !form.is_empty {
            return Ok(());
        }
        self.end();
        Ok(())
    }

    /// Goes out of the innermost element.
    pub(crate) fn end(&mut self)
        ensures keeps { (l : goes.Level) (ls : List goes.Level) (scope : List Bound) (run : List ℕ)
            → Keeps self.old (l ∷ ls) scope
            → Keeps self.new (goes.with_element l.name (beside l.kids (kept run none)) ls) l.outer }
        ensures ready { IsReady self.old → IsReady self.new }
        ensures steps { (x : g.Grammar) (l : goes.Level) (ls : List goes.Level) (run : List ℕ)
            → AreSteps x self.old.validity (l ∷ ls) run → length self.old.levels.items
            ≡ length ls + 1
            → AreSteps x self.new.validity
            (goes.with_element l.name (beside l.kids (kept run none)) ls) [] }
        ensures valid { (x : g.Grammar) (l : goes.Level) (run : List ℕ)
            → AreSteps x self.old.validity (l ∷ []) run → length self.old.levels.items ≡ 1
            → IsTrue self.new.validity.is_valid
            ↔ IsStarted x l.name (beside l.kids (kept run none)) }
    {
        let Some(level) = self.levels.pop() else {
            return;
        };
        self.validity.end();
        self.rooms.names.keep(level.names);
        self.rooms.scopes.keep(level.declared);
    }
}
