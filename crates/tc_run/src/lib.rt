//! Runs a stylesheet on a document (XSLT 1.0, 2 to 9).
//!
//! The document is gone through once from the leaves up, to work out the letter of each node: its symbol and which predicates hold
//! on it. After that, what is selected and which rule fits are read off the numbers of path states.
#![tactic(auto)]

ghost use Rattle.std.specs.Prelude.{IfOk, OnOk, IfErr};
ghost use Rattle.tc_model.specs.Safety.{IsResultOf};
ghost use Rattle.tc_model.specs.Views.{before, trees};
ghost use Rattle.tc_model.specs.Trees.{IsDocument, none};
ghost use Rattle.tc_rules.specs.Kept.{IsRulesOf, told};
ghost use Rattle.tc_run.specs.Lawful.{HasLawfulResults};
ghost use Rattle.tc_run.specs.Limits.{KeepsLimits, IsCause, IsPutOut, IsTextOfResult};

mod bodies;
mod children;
mod findings;
mod known_names;
mod leaves;
mod letters;
mod looks;
mod output;
mod predicates;
mod runner;
mod sights;
mod visits;

use bodies::root;
use bumpalo::Bump;
use letters::lettered_document;
use output::{Output, Taken};
use runner::Runner;
use std::alloc::Global;
use std::slice::from_ref;
use tc_alpha::Alphabet;
use tc_base::NoMemory;
use tc_model::{Node, normalise};
use tc_print::Writer;
use tc_rules::Rules;

/// Why there is no result. Where both limits are passed, either may be told.
#[derive(Clone, Copy, Debug, PartialEq, Eq)]
pub enum RunFault {
    /// More than 4,000,000 bodies are instantiated and elements and texts put out.
    TooMuchWork,
    /// More than 8,000 bodies and instructions stand within one another.
    TooOpen,
    /// Memory was refused.
    NoMemory,
}

impl From<NoMemory> for RunFault {
    ghost use Rattle.std.specs.Prelude.{◌≡◌};
    ghost use Rattle.tc_run.specs.declared.RunFault.TheVariants.{NoMemory};

    ghost from_gives = { λ _ e. e ≡ NoMemory };

    fn from(_error: NoMemory) -> RunFault {
        RunFault::NoMemory
    }
}

/// The law of lawful results: the result of a well-formed stylesheet on a document has lawful names and texts.
pub fn law_of_lawful_results()
    ensures { HasLawfulResults }
{}

/// Puts out, behind what was taken, what a stylesheet puts out on the root of a document in the default mode.
fn put_out<'b>(
    arena: &'b Bump,
    rules: &Rules<'b>,
    alphabet: &Alphabet,
    doc: &Node<'b>,
    taken: Taken<'b>,
) -> Result<Taken<'b>, RunFault>
    requires rules { IsRulesOf alphabet.now rules.now }
    ensures put { IfOk result
        (IsPutOut (told rules.now).sheet (before doc.now none) taken.entry) }
    ensures cause { IfErr result (λ e. IsCause (told rules.now).sheet (before doc.now none) e) }
{
    let nodes = from_ref(doc);
    let document = lettered_document(arena, rules, alphabet, nodes)?;
    let runner = Runner {
        rules,
        alphabet,
        numbered: document.numbered,
    };
    let mut output = Output::new(arena, taken);
    root(arena, &runner, document.nodes, &mut output)?;
    Ok(output.taken)
}

/// The result of a document: the normal form of what is put out on its root in the default mode.
///
/// # Errors
///
/// Where the work passes 4,000,000 or the nesting 8,000.
pub fn run<'b>(
    arena: &'b Bump,
    rules: &Rules<'b>,
    alphabet: &Alphabet,
    doc: &Node<'b>,
) -> Result<&'b [Node<'b>], RunFault>
    requires rules { IsRulesOf alphabet.now rules.now }
    requires document { IsDocument (before doc.now none) }
    ensures result { IfOk result
        (λ out. IsResultOf (told rules.now).sheet (before doc.now none) (trees out.now)) }
    ensures within { OnOk result (KeepsLimits (told rules.now).sheet (before doc.now none)) }
    ensures cause { IfErr result (λ e. IsCause (told rules.now).sheet (before doc.now none) e) }
{
    let nothing = Taken::Trees(Vec::new(arena));
    match put_out(arena, rules, alphabet, doc, nothing)? {
        Taken::Trees(nodes) => Ok(normalise(arena, &nodes)?),
        Taken::Text(_) => unreachable!(),
    }
}

/// The text of the result of a document, as `tc_print` prints it. No tree of the result is made.
///
/// # Errors
///
/// As `run`.
pub fn run_text<'b>(
    arena: &'b Bump,
    alloc: Global,
    rules: &Rules<'b>,
    alphabet: &Alphabet,
    doc: &Node<'b>,
) -> Result<Vec<u8>, RunFault>
    requires rules { IsRulesOf alphabet.now rules.now }
    requires document { IsDocument (before doc.now none) }
    ensures result { IfOk result
        (λ text. IsTextOfResult (told rules.now).sheet (before doc.now none) text.items) }
    ensures within { OnOk result (KeepsLimits (told rules.now).sheet (before doc.now none)) }
    ensures cause { IfErr result (λ e. IsCause (told rules.now).sheet (before doc.now none) e) }
{
    let nothing = Taken::Text(Writer::new(alloc));
    match put_out(arena, rules, alphabet, doc, nothing)? {
        Taken::Text(writer) => Ok(writer.into_bytes()),
        Taken::Trees(_) => unreachable!(),
    }
}
