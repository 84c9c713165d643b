//! A run without rules, by hand.
ghost use Rattle.std.specs.Prelude.{◌≡◌, ◌≤◌, length};
ghost use Rattle.tc_beh.specs.Machines.{IsMachine};
ghost use Rattle.tc_model.specs.Trees.{IsDocument, none};
ghost use Rattle.tc_model.specs.Views.{before};

use crate::rows::machine_with;
use crate::triples::LONGEST;
use bumpalo::Bump;
use std::alloc::Global;
use tc_beh::Machine;
use tc_model::Node;
use tc_read::read_document;
use tc_run::run;

/// The text that is all that a document gives, if it gives one.
fn only_text<'b>(arena: &'b Bump, machine: &Machine<'b>, document: &Node<'b>) -> Option<&'b str>
    requires machine { IsMachine machine.now }
    requires document { IsDocument (before document.now none) }
{
    let Ok(result) = run(arena, machine.rules(), machine.alphabet(), document) else {
        return None;
    };
    match result {
        [node] => match node {
            Node::Text(text) => Some(text),
            Node::Elem(_, _) => None,
        },
        _ => None,
    }
}

/// The same of a document's text.
fn text_of<'b>(arena: &'b Bump, machine: &Machine<'b>, document: &str) -> Option<&'b str>
    requires { IsMachine machine.now }
{
    if document.len() > LONGEST {
        return None;
    }
    match read_document(arena, document.as_bytes()) {
        Ok(document) => only_text(arena, machine, &document),
        Err(_) => None,
    }
}

/// Whether a document gives this text by a stylesheet without rules.
fn is_copied(alloc: Global, document: &str, text: &str) -> bool {
    let arena = Bump::new(alloc);
    match machine_with(alloc, &arena, "element a{empty}", "element r{empty}", "") {
        Some(machine) => text_of(&arena, &machine, document) == Some(text),
        None => false,
    }
}

/// Where no rule fits, the built-in ones copy the texts (XSLT 1.0, 5.8): here a text under two elements.
#[test]
fn texts_are_copied_where_no_rule_fits(rt: HostRuntime) {
    assert!(rt; is_copied(rt.alloc(), "<a><b>x</b></a>", "x"));
}
