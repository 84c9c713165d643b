// Symbols in order, by name and back.
ghost use Rattle.std.specs.Prelude.{◌≡◌, ◌<◌, ◌≤◌, length, slice_get, IfOk, IfErr, OnOk, MatchOption};
ghost use Rattle.tc_alpha.specs.Free.{mention_by};
ghost use Rattle.tc_alpha.specs.Kept.{known, all_known};
ghost use Rattle.tc_alpha.specs.Views.{seen, mention as see_mention};
ghost use Rattle.tc_model.specs.Grammars as g;
ghost use Rattle.tc_model.specs.Names.{ExpandedName, IsName};
ghost use Rattle.tc_model.specs.Views as see;
ghost use Rattle.tc_model.specs.Sheets as s;
ghost use Rattle.tc_model.specs.Symbols.{AreAlike, AreFirstFree, AreSymbols, GiveSymbols, IsAlikeBySymbol, IsOnlyInOrder, IsSymbolOfFresh, SchemasHaveTheirSymbols, fresh_name, in_order, is_mentioned, lengthened, mention_cmp, place_of, symbol_count, symbol_of, symbols_of, symbols_of_schema};
ghost use Rattle.tc_model.specs.WellFormed.{IsSheet};

use crate::mentions::{Mention, mention_grammar, mention_sheet, with_namespaces};
use bumpalo::Bump;
use bumpalo::collections::into_bump_str;
use std::alloc::{AllocError, Global};
use std::cmp::Ordering;
use std::marker::Model;
use tc_base::NoMemory;
use tc_base::limits::MOST_SYMBOLS;
use tc_model::{Grammar, Name, Sheet};

/// The law of symbols: names of one symbol are in the same name classes and pass the same node tests of the
/// schemas and the stylesheet, and the name that stands for a symbol has it. Symbols are the only list in
/// order of what is mentioned, and the names that stand for others are the first free ones.
pub fn law_of_symbols()
    ensures alike { IsAlikeBySymbol }
    ensures fresh { IsSymbolOfFresh }
    ensures symbols { GiveSymbols }
    ensures in_order { IsOnlyInOrder }
    ensures first_free { AreFirstFree }
    ensures schemas { SchemasHaveTheirSymbols }
{}

/// A symbol's number, from 0, in the order of the symbols.
#[derive(Clone, Copy, Debug, PartialEq, Eq, PartialOrd, Ord, Hash)]
pub struct Sym(pub u32);

/// Why there is no alphabet.
#[derive(Clone, Copy, Debug, PartialEq, Eq)]
pub enum AlphaFault {
    /// There are more than 1,024 symbols.
    TooManySymbols,
    /// Memory was refused.
    NoMemory,
}

impl From<NoMemory> for AlphaFault {
    ghost use Rattle.std.specs.Prelude.{◌≡◌};
    ghost use Rattle.tc_alpha.specs.declared.alphabet.AlphaFault.TheVariants.{NoMemory};

    ghost from_gives = { λ _ e. e ≡ NoMemory };

    fn from(_error: NoMemory) -> AlphaFault {
        AlphaFault::NoMemory
    }
}

/// A name or a namespace that is kept.
#[derive(Drop)]
enum Known {
    Name(String, String),
    Namespace(String),
}

/// A copy that outlives what it was copied from.
fn kept(alloc: Global, mention: &Mention<'_>) -> Result<Known, NoMemory>
    ensures { IfOk result (λ k. known k ≡ see_mention mention.now) }
{
    match mention {
        Mention::Name(name) => {
            let uri = String::from_str(alloc, name.uri)?;
            let local = String::from_str(alloc, name.local)?;
            Ok(Known::Name(uri, local))
        }
        Mention::Namespace(uri) => Ok(Known::Namespace(String::from_str(alloc, uri)?)),
    }
}

/// Copies of all.
fn all_kept(alloc: Global, mentions: &[Mention<'_>]) -> Result<Vec<Known>, NoMemory>
    ensures { IfOk result (λ v. all_known v.items ≡ seen mentions.now) }
{
    let mut symbols = Vec::new(alloc);
    for mention in mentions {
        symbols.push(kept(alloc, mention)?)?;
    }
    Ok(symbols)
}

impl Known {
    /// The same, lent.
    fn lent(&self) -> Mention<'_>
        ensures { see_mention result ≡ known self.now }
    {
        match self {
            Known::Name(uri, local) => Mention::Name(Name {
                uri: uri.as_str(),
                local: local.as_str(),
            }),
            Known::Namespace(uri) => Mention::Namespace(uri.as_str()),
        }
    }

    /// How it stands to a mention in the order of symbols.
    fn order(&self, mention: &Mention<'_>) -> Ordering
        ensures { result ≡ mention_cmp (known self.now) (see_mention mention.now) }
    {
        self.lent().cmp(mention)
    }
}

/// The symbols of two schemas and a stylesheet. In contracts it is the list of the names and namespaces that
/// have symbols of their own, in order; the last symbol is that of all other names.
#[derive(Drop)]
pub struct Alphabet {
    symbols: Vec<Known>,
}

impl Model for Alphabet {
    ghost use Rattle.std.specs.Prelude.{List, ◌<◌, length};
    ghost use Rattle.tc_base.specs.declared.limits.TheConstants.{MOST_SYMBOLS};
    ghost use Rattle.tc_model.specs.Symbols.{Mention, AreSymbols};

    ghost Value = { List Mention };

    ghost use Rattle.tc_alpha.specs.Kept.{all_known};

    ghost view = { λ a. all_known a.symbols.items };

    ghost invariant = { λ a. AreSymbols (all_known a.symbols.items) × (length (all_known a.symbols.items) < MOST_SYMBOLS) };
}

impl Alphabet {
    /// The symbols of what the schemas and the stylesheet mention.
    pub fn of(
        alloc: Global,
        input: &Grammar<'_>,
        output: &Grammar<'_>,
        sheet: &Sheet<'_>,
    ) -> Result<Alphabet, AlphaFault>
        ensures stands { IfOk result (λ a. a
            ≡ symbols_of (see.grammar input.now) (see.grammar output.now) (see.sheet sheet.now)) }
        ensures few { OnOk result
            (symbol_count
            (symbols_of (see.grammar input.now) (see.grammar output.now) (see.sheet sheet.now))
            ≤ MOST_SYMBOLS) }
        ensures many { IfErr result
            (λ e. e ≡ AlphaFault.TooManySymbols
            → MOST_SYMBOLS < symbol_count
            (symbols_of (see.grammar input.now) (see.grammar output.now) (see.sheet sheet.now))) }
    {
        let mentions = mentions_of(alloc, input, output, sheet)?;
        of_mentions(alloc, &mentions)
    }

    /// How many symbols there are.
    pub fn count(&self) -> u32
        ensures number { result ≡ symbol_count self.now }
        ensures few { result ≤ MOST_SYMBOLS }
    {
        self.own() as u32 + 1
    }

    /// How many symbols there are but for the last.
    fn own(&self) -> usize
        ensures number { result ≡ length self.now }
        ensures few { result < MOST_SYMBOLS }
    {
        self.symbols.len()
    }

    /// Where a mention stands among the symbols; their number but for the last where it does not.
    fn place(&self, mention: &Mention<'_>) -> usize
        ensures place { result ≡ place_of (see_mention mention.now) self.now }
        ensures bound { result ≤ length self.now }
    {
        match self.symbols.binary_search_by(|known| known.order(mention)) {
            Ok(place) => place,
            Err(_) => self.symbols.len(),
        }
    }

    /// What stands at a place among the symbols.
    fn at(&self, place: usize) -> Option<Mention<'_>>
        ensures found { MatchOption result (slice_get self.now place ≡ None)
            (λ m. slice_get self.now place ≡ Some (see_mention m)) }
        ensures symbols { AreSymbols self.now }
    {
        match self.symbols.get(place) {
            Some(known) => Some(known.lent()),
            None => None,
        }
    }

    /// The symbol of a name. Names of one symbol are in the same name classes and pass the same node tests.
    pub fn sym_of(&self, name: &Name<'_>) -> Sym
        ensures symbol { result.0 ≡ symbol_of self.now (see.name name.now) }
        ensures below { result.0 < symbol_count self.now }
        ensures alike { (input output : g.Grammar) (sheet : s.Sheet) → self.now
            ≡ symbols_of input output sheet → (other : ExpandedName) → result.0
            ≡ symbol_of self.now other → AreAlike input output sheet (see.name name.now) other }
    {
        let own = self.place(&Mention::Name(*name));
        if own < self.own() {
            return Sym(own as u32);
        }
        Sym(self.place(&Mention::Namespace(name.uri)) as u32)
    }

    /// A name of a symbol: the name itself, or a name of the namespace, or of a namespace, that is not
    /// mentioned. It is lawful where the schemas and the stylesheet are.
    pub fn fresh<'b>(&self, arena: &'b Bump, sym: Sym) -> Result<Name<'b>, NoMemory>
        requires { sym.0 < symbol_count self.now }
        ensures name { IfOk result (λ n. see.name n ≡ fresh_name self.now sym.0) }
        ensures lawful { IfOk result
            (λ n. (input output : g.Grammar) (sheet : s.Sheet) → g.IsGrammar input
            → g.IsGrammar output → IsSheet sheet → self.now ≡ symbols_of input output sheet
            → IsName (see.name n)) }
        ensures symbol { IfOk result (λ n. symbol_of self.now (see.name n) ≡ sym.0) }
    {
        match self.at(sym.0 as usize) {
            Some(Mention::Name(name)) => Ok(Name {
                uri: arena.try_alloc_str(name.uri)?,
                local: arena.try_alloc_str(name.local)?,
            }),
            Some(Mention::Namespace(uri)) => Ok(Name {
                uri: arena.try_alloc_str(uri)?,
                local: self.free_text(arena, Some(uri), "n")?,
            }),
            None => Ok(Name {
                uri: self.free_text(arena, None, "urn:n")?,
                local: "n",
            }),
        }
    }

    /// The shortest of a text, the same with one `n` more, .. that is not mentioned: as a local name in a
    /// namespace, or as a namespace where none is given.
    fn free_text<'b>(
        &self,
        arena: &'b Bump,
        within: Option<&str>,
        first: &str,
    ) -> Result<&'b str, NoMemory>
        ensures { IfOk result
            (λ text. text.now
            ≡ lengthened (λ t. is_mentioned (mention_by within.entry t) self.now)
            (length self.now) first.now) }
    {
        let most = self.own();
        let mut text = String::from_str(arena, first)?;
        for _tried in 0..most {
            if self.place(&mention_by(within, text.as_str())) == most {
                return Ok(into_bump_str(text));
            }
            text.push('n')?;
        }
        Ok(into_bump_str(text))
    }
}

/// The mention of a local name in a namespace, or of a namespace where none is given.
fn mention_by<'u: 'm, 'm>(within: Option<&'u str>, text: &'m str) -> Mention<'m>
    ensures { see_mention result ≡ mention_by within.entry text.now }
{
    match within {
        Some(uri) => Mention::Name(Name { uri, local: text }),
        None => Mention::Namespace(text),
    }
}

/// The alphabet of what is mentioned, in order, each once.
fn of_mentions(alloc: Global, mentions: &[Mention<'_>]) -> Result<Alphabet, AlphaFault>
    requires { AreSymbols (seen mentions.now) }
    ensures stands { IfOk result (λ a. a ≡ seen mentions.now) }
    ensures few { OnOk result (symbol_count (seen mentions.now) ≤ MOST_SYMBOLS) }
    ensures many { IfErr result
        (λ e. e ≡ AlphaFault.TooManySymbols → MOST_SYMBOLS < symbol_count (seen mentions.now)) }
{
    if mentions.len() >= MOST_SYMBOLS as usize {
        return Err(AlphaFault::TooManySymbols);
    }
    let symbols = all_kept(alloc, mentions)?;
    Ok(Alphabet { symbols })
}

/// How many symbols a schema has by itself.
///
/// # Errors
///
/// There is no memory for what it mentions.
pub fn count_of_schema(alloc: Global, grammar: &Grammar<'_>) -> Result<usize, NoMemory>
    ensures { IfOk result (λ n. n ≡ symbol_count (symbols_of_schema (see.grammar grammar.now))) }
{
    let mut found = Vec::new(alloc);
    mention_grammar(&mut found, grammar)?;
    let mut all = with_namespaces(alloc, &found)?;
    put_in_order(&mut all);
    Ok(all.len() + 1)
}

/// What is mentioned, in order, each once.
fn mentions_of<'i: 'f, 'o: 'f, 's: 'f, 'f>(
    alloc: Global,
    input: &Grammar<'i>,
    output: &Grammar<'o>,
    sheet: &Sheet<'s>,
) -> Result<Vec<Mention<'f>>, NoMemory>
    ensures { IfOk result (λ v. seen v.items
        ≡ symbols_of (see.grammar input.now) (see.grammar output.now) (see.sheet sheet.now)) }
{
    let mut found = Vec::new(alloc);
    mention_grammar(&mut found, input)?;
    mention_grammar(&mut found, output)?;
    mention_sheet(&mut found, sheet)?;
    let mut all = with_namespaces(alloc, &found)?;
    put_in_order(&mut all);
    Ok(all)
}

/// The same in order, each once.
fn put_in_order(mentions: &mut Vec<Mention<'_>>)
    ensures { seen mentions.new.items ≡ in_order mention_cmp (seen mentions.old.items) }
{
    mentions.sort_unstable();
    mentions.dedup();
}
