// The schema of a document type definition.
ghost use Rattle.std.specs.Prelude.{◌≡◌, ◌≤◌, IfErr, IfOk, OnOk, map, length};
ghost use Rattle.tc_model.specs.Grammars.{IsGrammar};
ghost use Rattle.tc_model.specs.SimplifiesCounts.{IsWithinCounts};
ghost use Rattle.tc_model.specs.SimplifiesLaws.{IsStart};
ghost use Rattle.tc_model.specs.Views as seen;
ghost use Rattle.tc_dtd.specs.Declarations.{AreDeclarations};
ghost use Rattle.tc_dtd.specs.DtdGrammar.{Keeps, IsGrammarOfDtd, grammar_with};
ghost use Rattle.tc_dtd.specs.Numbers.{AreApart};
ghost use Rattle.tc_dtd.specs.Refused.{Refuses, FitsCounts, FaultFits, AllowsTheSame};
ghost use Rattle.tc_dtd.specs.Views as see;

use crate::declarations::{Decl, Dtd};
use crate::links::{marked, put_links};
use crate::numbers::{Names, names_of, number_of};
use crate::patterns::{element_patterns, reference};
use crate::sizes::total;
use bumpalo::Bump;
use bumpalo::collections::into_bump_slice;
use tc_base::NoMemory as OutOfMemory;
use tc_base::limits::{GREATEST_PATTERN_DEPTH, MOST_ELEMENT_PATTERNS, MOST_PATTERN_NODES};
use tc_graph::reached;
use tc_model::Grammar;

/// Why a document type definition has no schema. The faults are tried in this order.
#[derive(Clone, Copy, Debug, PartialEq, Eq)]
pub enum DtdGrammarFault {
    /// It would have more than 65,536 nodes of patterns.
    TooManyNodes,
    /// Its patterns would nest deeper than 2,000.
    TooNested,
    /// It would have more than 256 element patterns.
    TooManyElements,
    /// Memory was refused.
    NoMemory,
}

impl From<OutOfMemory> for DtdGrammarFault {
    ghost use Rattle.tc_dtd.specs.declared.schema.DtdGrammarFault.TheVariants.{NoMemory};

    ghost from_gives = { λ _ e. e ≡ NoMemory };

    fn from(_error: OutOfMemory) -> DtdGrammarFault {
        DtdGrammarFault::NoMemory
    }
}

/// The declarations of the elements that are reached from this one, in their order, by the numbers of their names.
fn kept_by<'b>(
    arena: &'b Bump,
    decls: &'b [Decl<'b>],
    found: &Names<'b>,
    root: &'b str,
) -> Result<&'b [Decl<'b>], OutOfMemory>
    requires declarations { AreDeclarations (map see.declaration decls.now) }
    requires found { see.names found.now.keys ≡ map (λ x. x.name) (map see.declaration decls.now) }
    ensures { IfOk result
        (λ v. Keeps (map see.declaration decls.now) root.now (map see.declaration decls.now)
        (map see.declaration v.now)) }
{
    let Some(number) = number_of(found, root) else {
        return Ok(&[]);
    };
    let mut rows = Vec::new(arena);
    put_links(arena, found, decls, &mut rows)?;
    let marks = reached(arena, rows.as_slice(), number)?;
    marked(arena, decls, marks.as_slice())
}

/// The declarations of the elements that are reached from this one, in their order.
fn kept<'b>(
    arena: &'b Bump,
    decls: &'b [Decl<'b>],
    root: &'b str,
) -> Result<&'b [Decl<'b>], OutOfMemory>
    requires { AreDeclarations (map see.declaration decls.now) }
    ensures { IfOk result
        (λ v. Keeps (map see.declaration decls.now) root.now (map see.declaration decls.now)
        (map see.declaration v.now)) }
{
    let found = names_of(arena, decls)?;
    kept_by(arena, decls, &found, root)
}

/// Whether the grammar of these elements isn't too large.
fn check_limits(decls: &[Decl<'_>]) -> Result<(), DtdGrammarFault>
    ensures ok { OnOk result (FitsCounts (map see.declaration decls.now)) }
    ensures err { IfErr result (FaultFits (map see.declaration decls.now)) }
{
    let size = total(decls);
    if size.nodes > u64::from(MOST_PATTERN_NODES) {
        return Err(DtdGrammarFault::TooManyNodes);
    }
    if size.depth > u64::from(GREATEST_PATTERN_DEPTH) {
        return Err(DtdGrammarFault::TooNested);
    }
    if decls.len() > MOST_ELEMENT_PATTERNS as usize {
        return Err(DtdGrammarFault::TooManyElements);
    }
    Ok(())
}

/// The names of declarations.
fn local_names<'b>(arena: &'b Bump, decls: &[Decl<'b>]) -> Result<&'b [&'b str], OutOfMemory>
    ensures { IfOk result
        (λ v. see.names v.now ≡ map (λ x. x.name) (map see.declaration decls.now)) }
{
    let mut out: Vec<&'b str, &'b Bump> = Vec::new(arena);
    for decl in decls {
        out.push(decl.name)?;
    }
    Ok(into_bump_slice(out))
}

/// The grammar of these elements, by the numbers of their names.
fn built_by<'b>(
    arena: &'b Bump,
    decls: &[Decl<'b>],
    found: &Names<'b>,
    root: &'b str,
) -> Result<Grammar<'b>, OutOfMemory>
    requires few { length decls.now ≤ MOST_ELEMENT_PATTERNS }
    requires found { see.names found.now.keys ≡ map (λ x. x.name) (map see.declaration decls.now) }
    ensures { IfOk result
        (λ g. seen.grammar g ≡ grammar_with (map see.declaration decls.now) root.now) }
{
    let names = local_names(arena, decls)?;
    let elements = element_patterns(arena, found, names, decls)?;
    let start = reference(found, root);
    Ok(Grammar { start, elements })
}

/// The grammar of these elements.
fn built<'b>(arena: &'b Bump, decls: &[Decl<'b>], root: &'b str) -> Result<Grammar<'b>, OutOfMemory>
    requires once { AreApart (map (λ x. x.name) (map see.declaration decls.now)) }
    requires few { length decls.now ≤ MOST_ELEMENT_PATTERNS }
    ensures { IfOk result
        (λ g. seen.grammar g ≡ grammar_with (map see.declaration decls.now) root.now) }
{
    let found = names_of(arena, decls)?;
    built_by(arena, decls, &found, root)
}

/// The schema of the declarations of a document type definition, with `root` as the document's element: for it those
/// documents are valid that are valid for the declarations, which say it of XML 1.0 (3, Element Valid).
///
/// # Errors
///
/// A limit that the schema would pass, the first in the order of `DtdGrammarFault`. It is known before anything is made.
pub fn grammar<'b>(
    arena: &'b Bump,
    dtd: &Dtd<'b>,
    root: &str,
) -> Result<Grammar<'b>, DtdGrammarFault>
    requires { AreDeclarations (see.declarations dtd.now) }
    ensures grammar { IfOk result
        (λ g. IsGrammarOfDtd (see.declarations dtd.now) root.now (seen.grammar g)) }
    ensures within { IfOk result (λ g. IsWithinCounts (seen.grammar g)) }
    ensures lawful { IfOk result (λ g. IsGrammar (seen.grammar g)) }
    ensures start { IfOk result (λ g. IsStart (seen.pattern g.start)) }
    ensures valid { IfOk result
        (λ g. AllowsTheSame (see.declarations dtd.now) root.now (seen.grammar g)) }
    ensures err { IfErr result (Refuses (see.declarations dtd.now) root.now) }
{
    let root = copied(arena, root)?;
    let decls = kept(arena, dtd.decls, root)?;
    check_limits(decls)?;
    let grammar = built(arena, decls, root)?;
    Ok(grammar)
}

/// The name in the arena.
fn copied<'b>(arena: &'b Bump, name: &str) -> Result<&'b str, OutOfMemory>
    ensures { IfOk result (λ r. r.now ≡ name.now) }
{
    let name: &'b str = arena.try_alloc_str(name)?;
    Ok(name)
}
