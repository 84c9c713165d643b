//! Prints trees as XML 1.0 (Fifth Edition) with Namespaces in XML 1.0.
//!
//! The default namespace is declared where an element's namespace is another than the one in force, and
//! no prefix is declared. Texts and namespace names have references in place of line feeds, so no piece
//! that is written of them holds one.
#![tactic(auto)]

mod escapes;
mod tags;
mod writer;

ghost use Rattle.std.specs.Prelude.{◌≤◌, OnOk, OnErr};
ghost use Rattle.tc_io.specs.Faults.{Rose};
ghost use Rattle.tc_io.specs.Sink.{Appended, WroteFront};
ghost use Rattle.tc_model.specs.Printed.{printed, printed_in};
ghost use Rattle.tc_model.specs.Views.{before, trees};
ghost use Rattle.tc_model.specs.Trees.{none};
ghost use Rattle.tc_print.specs.Counting.{CountsFaults};
ghost use Rattle.tc_print.specs.ReadBack.{IsShallowDocument, IsReadAs};

use escapes::{Within, write_escaped};
use tags::{begin_tag, write_end_tag};
use tc_io::{Sink, WriteFault};
use tc_model::Node;
pub use writer::{Writer, law_of_written_trees};

/// Appends trees as XML, one beside the other, without a declaration of the version or a line feed.
///
/// It takes no memory. It fails only where a write fails, and then a front of the text was appended. A document
/// is read back as itself, unless it is nested deeper than an XML text may be.
#[tactic(auto, using(crate::proofs::ReadBack::read_back))]
pub fn print<K: Sink>(nodes: &[Node<'_>], sink: &mut K) -> Result<(), WriteFault>
    // All of the text was appended, or only a front of it.
    ensures ok { OnOk result
        (Appended (K.written sink.old) (K.written sink.new) (printed (trees nodes.now))) }
    ensures fault { OnErr result
        (WroteFront (K.written sink.old) (K.written sink.new) (printed (trees nodes.now))) }

    // The count of faults never falls, and an error comes only where it rose.
    ensures count { K.faults sink.old ≤ K.faults sink.new }
    ensures rose { OnErr result (Rose (K.faults sink.old) (K.faults sink.new)) }

    // The text of a document is read back as that document.
    ensures read_back { IsShallowDocument (trees nodes.now)
        → IsReadAs (printed (trees nodes.now)) (trees nodes.now) }
{
    print_within("", nodes, sink)
}

/// Prints trees where this default namespace is in force.
#[cycle(print)]
fn print_within<K: Sink>(default: &str, nodes: &[Node<'_>], sink: &mut K) -> Result<(), WriteFault>
    ensures ok { OnOk result
        (Appended (K.written sink.old) (K.written sink.new)
        (printed_in default.now (trees nodes.now))) }
    ensures fault { OnErr result
        (WroteFront (K.written sink.old) (K.written sink.new)
        (printed_in default.now (trees nodes.now))) }
    ensures faults { CountsFaults (K.faults sink.old) (K.faults sink.new) result }
{
    for node in nodes {
        print_one(default, node, sink)?;
    }
    Ok(())
}

/// Prints one tree where this default namespace is in force.
#[cycle(print)]
fn print_one<K: Sink>(default: &str, node: &Node<'_>, sink: &mut K) -> Result<(), WriteFault>
    ensures ok { OnOk result
        (Appended (K.written sink.old) (K.written sink.new)
        (printed_in default.now (before node.now none))) }
    ensures fault { OnErr result
        (WroteFront (K.written sink.old) (K.written sink.new)
        (printed_in default.now (before node.now none))) }
    ensures faults { CountsFaults (K.faults sink.old) (K.faults sink.new) result }
{
    match node {
        Node::Text(text) => write_escaped(Within::Text, text.as_bytes(), sink),
        Node::Elem(name, kids) => {
            let within = begin_tag(default, name, sink)?;
            if kids.is_empty() {
                return sink.write(b"/>");
            }
            sink.write(b">")?;
            print_within(within, kids, sink)?;
            write_end_tag(name, sink)
        }
    }
}
