//! Simplifies schemas of RELAX NG's compact syntax (RELAX NG Specification, OASIS 2001, 4, as far as elements
//! and text are told).
//! A refusal for a count carries, in its contract, the grammar that passes it: so a syntax tree without
//! faults has a grammar. The words `element` stand in the order of the text, as is proved, so the elements
//! that are reached are numbered by a walk over the text, and nothing is sorted.
#![tactic(auto)]

ghost use Rattle.std.specs.Prelude.{IfErr, IfOk};
ghost use Rattle.tc_model.specs.CompactSyntaxLawful.{IsLawfulSyntax};
ghost use Rattle.tc_model.specs.Views as seen;
ghost use Rattle.tc_model.specs.Simplifies.{Simplifies};
ghost use Rattle.tc_model.specs.SimplifiesCounts.{IsWithinCounts};
ghost use Rattle.tc_rnc.specs.Views as see;
ghost use Rattle.tc_simple.specs.Laws.{HasGrammarOrFault};
ghost use Rattle.tc_simple.specs.Refused.{Refuses};
ghost use Rattle.tc_simple.specs.Tables.{IsTable};
ghost use Rattle.tc_simple.specs.Walked.{IsGrammar, IsResolved};

mod becomes;
mod checks;
mod counts;
mod elements;
mod faults;
mod grammar;
mod groups;
mod links;
mod loops;
mod order;
mod resolve;

use bumpalo::Bump;
pub use faults::SimpleFault;
use grammar::{built, counted};
use groups::Table;
use resolve::{check, defined_start, mark, walk};
use tc_graph::Walk;
use tc_model::Grammar;
use tc_rnc::Syntax;

/// The grammar of a syntax tree, which is that of some text (as `law_of_syntax_trees` of `tc_model` says).
///
/// # Errors
///
/// The faults are tried in the order of `SimpleFault`, and each comes exactly where it is the first.
pub fn simplify<'b>(arena: &'b Bump, syntax: &Syntax<'b>) -> Result<Grammar<'b>, SimpleFault>
    requires { IsLawfulSyntax (see.syntax syntax.now) }
    ensures grammar { IfOk result (λ g. Simplifies (see.syntax syntax.now) (seen.grammar g)) }
    ensures within { IfOk result (λ g. IsWithinCounts (seen.grammar g)) }
    ensures err { IfErr result (λ e. Refuses (see.syntax syntax.now) e) }
{
    let table = Table::of(arena, syntax)?;
    of_table(arena, syntax, &table)
}

/// The grammar of a syntax tree whose definitions are joined.
fn of_table<'b>(
    arena: &'b Bump,
    syntax: &Syntax<'b>,
    table: &Table<'b>,
) -> Result<Grammar<'b>, SimpleFault>
    requires lawful { IsLawfulSyntax (see.syntax syntax.now) }
    requires table { IsTable (see.syntax syntax.now) table.now }
    ensures grammar { IfOk result (λ g. IsGrammar (see.syntax syntax.now) (seen.grammar g)) }
    ensures err { IfErr result (λ e. Refuses (see.syntax syntax.now) e) }
{
    let start = defined_start(table, syntax)?;
    let marks = mark(arena, table, start, true)?;
    let walked = walk(arena, table)?;
    resolved(arena, syntax, table, start, &marks, &walked)
}

/// The grammar of a syntax tree whose definitions are joined, and whose references are followed.
fn resolved<'b>(
    arena: &'b Bump,
    syntax: &Syntax<'b>,
    table: &Table<'b>,
    start: usize,
    marks: &[bool],
    walked: &Walk<'b>,
) -> Result<Grammar<'b>, SimpleFault>
    requires { IsResolved
        (see.syntax syntax.now) table.now start marks.now walked.now.states.items
        walked.now.order.items }
    ensures grammar { IfOk result (λ g. IsGrammar (see.syntax syntax.now) (seen.grammar g)) }
    ensures err { IfErr result (λ e. Refuses (see.syntax syntax.now) e) }
{
    check(arena, syntax, table, start, marks, walked)?;
    let found = counted(arena, syntax, table, start, marks, walked)?;
    let grammar = built(arena, table, start, marks, walked, found)?;
    Ok(grammar)
}

/// A law of syntax trees: each that is lawful has a grammar or a fault, of whatever size.
pub fn law_of_simplification()
    ensures { HasGrammarOrFault }
{}
