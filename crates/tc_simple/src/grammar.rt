// The grammar of a syntax tree without faults.
ghost use Rattle.std.specs.Prelude.{◌≡◌, ◌≤◌, ◌∷◌, [], IfErr, IfOk, OnOk, length, map};
ghost use Rattle.tc_model.specs.CompactSyntaxLawful.{IsLawfulSyntax};
ghost use Rattle.tc_model.specs.CompactSyntaxTrees as t;
ghost use Rattle.tc_model.specs.Grammars as g;
ghost use Rattle.tc_model.specs.Simplifies.{Simplifies};
ghost use Rattle.tc_model.specs.SimplifiesCounts.{IsWithinCounts};
ghost use Rattle.tc_model.specs.SimplifiesFaults.{IsFaultless};
ghost use Rattle.tc_rnc.specs.Views as see;
ghost use Rattle.tc_simple.specs.Refused.{Refuses};
ghost use Rattle.tc_simple.specs.Resolves.{Resolves};
ghost use Rattle.tc_model.specs.Views as seen;
ghost use Rattle.tc_simple.specs.Nodes.{elements_of, see_element, HasNumbersBelow};
ghost use Rattle.tc_simple.specs.Walked.{AreCounted, AreMarks, AreNumbers, IsSound};
ghost use Rattle.tc_simple.specs.Totals.{element_patterns_of, total_of, IsSizeOf};

use crate::becomes::{name_class, pattern};
use crate::counts::{Size, measure};
use crate::elements::{Elem, elements};
use crate::faults::SimpleFault;
use crate::groups::Table;
use crate::order::{all_patterns, all_sizes};
use bumpalo::Bump;
use bumpalo::collections::into_bump_slice;
use tc_base::NoMemory;
use tc_base::limits::{GREATEST_PATTERN_DEPTH, MOST_ELEMENT_PATTERNS, MOST_PATTERN_NODES};
use tc_graph::Walk;
use tc_model::{ElemPat, Grammar, Pat};
use tc_rnc::Syntax;

/// The most nodes of patterns, the greatest depth, and the most element patterns.
const MOST_NODES: u64 = MOST_PATTERN_NODES as u64;

const GREATEST_DEPTH: u64 = GREATEST_PATTERN_DEPTH as u64;

const MOST_ELEMENTS: usize = MOST_ELEMENT_PATTERNS as usize;

/// The size of the start and of the contents of elements, side by side.
fn total<'b>(table: &Table<'b>, sizes: &[Size], start: Size, elements: &[Elem<'b>]) -> Size
    requires { HasNumbersBelow table.now (length sizes.now) }
    ensures { result ≡ total_of table.now sizes.now start (map see_element elements.now) }
{
    let mut all = start;
    for element in elements {
        all = all.beside(measure(table, sizes, &element.content));
    }
    all
}

/// The element pattern of an element.
fn element_pattern<'b>(
    arena: &'b Bump,
    table: &Table<'b>,
    made: &[Pat<'b>],
    elements: &[Elem<'b>],
    element: &Elem<'b>,
) -> Result<ElemPat<'b>, NoMemory>
    requires few { length elements.now ≤ MOST_ELEMENT_PATTERNS }
    requires numbers { HasNumbersBelow table.now (length made.now) }
    ensures { IfOk result
        (λ e. seen.element_pattern e ∷ []
        ≡ element_patterns_of table.now made.now (map see_element elements.now)
        (see_element element.now ∷ [])) }
{
    let names = name_class(arena, &element.names)?;
    let content = pattern(arena, table, &element.content, elements, made)?;
    Ok(ElemPat { names, content })
}

/// The element patterns of elements.
fn element_patterns<'b>(
    arena: &'b Bump,
    table: &Table<'b>,
    made: &[Pat<'b>],
    elements: &[Elem<'b>],
) -> Result<&'b [ElemPat<'b>], NoMemory>
    requires few { length elements.now ≤ MOST_ELEMENT_PATTERNS }
    requires numbers { HasNumbersBelow table.now (length made.now) }
    ensures { IfOk result
        (λ es. map seen.element_pattern es.now
        ≡ element_patterns_of table.now made.now (map see_element elements.now)
        (map see_element elements.now)) }
{
    let mut out = Vec::new(arena);
    for element in elements {
        let pattern = element_pattern(arena, table, made, elements, element)?;
        out.push(pattern)?;
    }
    Ok(into_bump_slice(out))
}

/// The size of the grammar whose elements these are.
fn whole_size<'b>(
    arena: &'b Bump,
    table: &Table<'b>,
    start: usize,
    marks: &[bool],
    walk: &Walk<'b>,
    found: &[Elem<'b>],
) -> Result<Size, NoMemory>
    requires marks { AreMarks table.now marks.now }
    requires order { AreNumbers table.now start walk.now.order.items }
    ensures { IfOk result
        (λ size. (s : t.Syntax) → IsLawfulSyntax s → IsFaultless s
        → Resolves s table.now start marks.now walk.now.states.items walk.now.order.items
        → map see_element found.now ≡ elements_of table.now marks.now s.definitions
        → (grammar : g.Grammar) × Simplifies s grammar × IsSizeOf grammar size (length found.now)) }
{
    let sizes = all_sizes(arena, table, walk, marks)?;
    Ok(total(table, sizes, sizes[start], found))
}

/// Refuses a grammar that is too large, which has this size and so many element patterns.
fn check_counts(size: Size, elements: usize) -> Result<(), SimpleFault>
    ensures ok { OnOk result
        ((grammar : g.Grammar) → IsSizeOf grammar size elements → IsWithinCounts grammar) }
    ensures err { IfErr result (λ e. (s : t.Syntax) (grammar : g.Grammar) → Simplifies s grammar
        → IsSizeOf grammar size elements → Refuses s e) }
{
    if size.nodes > MOST_NODES {
        return Err(SimpleFault::TooManyNodes);
    }
    if size.depth > GREATEST_DEPTH {
        return Err(SimpleFault::TooNested);
    }
    if elements > MOST_ELEMENTS {
        return Err(SimpleFault::TooManyElements);
    }
    Ok(())
}

/// The elements that are reached, where the grammar isn't too large.
pub fn counted<'b>(
    arena: &'b Bump,
    syntax: &Syntax<'b>,
    table: &Table<'b>,
    start: usize,
    marks: &[bool],
    walk: &Walk<'b>,
) -> Result<&'b [Elem<'b>], SimpleFault>
    requires { IsSound
        (see.syntax syntax.now) table.now start marks.now walk.now.states.items
        walk.now.order.items }
    ensures ok { IfOk result
        (λ v. AreCounted (see.syntax syntax.now) table.now marks.now v.now) }
    ensures err { IfErr result (λ e. Refuses (see.syntax syntax.now) e) }
{
    let found = elements(arena, table, marks, syntax)?;
    let size = whole_size(arena, table, start, marks, walk, found)?;
    check_counts(size, found.len())?;
    Ok(found)
}

/// Makes the grammar whose elements these are.
pub fn built<'b>(
    arena: &'b Bump,
    table: &Table<'b>,
    start: usize,
    marks: &[bool],
    walk: &Walk<'b>,
    found: &[Elem<'b>],
) -> Result<Grammar<'b>, NoMemory>
    requires marks { AreMarks table.now marks.now }
    requires order { AreNumbers table.now start walk.now.order.items }
    requires few { length found.now ≤ MOST_ELEMENT_PATTERNS }
    ensures { IfOk result
        (λ grammar. (s : t.Syntax) → IsLawfulSyntax s → IsFaultless s
        → Resolves s table.now start marks.now walk.now.states.items walk.now.order.items
        → map see_element found.now ≡ elements_of table.now marks.now s.definitions
        → Simplifies s (seen.grammar grammar)) }
{
    let patterns = all_patterns(arena, table, walk, marks, found)?;
    let elements = element_patterns(arena, table, patterns, found)?;
    Ok(Grammar {
        start: patterns[start],
        elements,
    })
}
