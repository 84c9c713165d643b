//! The spots of small stylesheets, and what marked stylesheets put out on small documents, by hand.
ghost use Rattle.std.specs.Prelude.{Contains, IfOk};
ghost use Rattle.tc_dead.specs.Spots.{spots_of};
ghost use Rattle.tc_dead.specs.Views.{seen};
ghost use Rattle.tc_model.specs.Trees.{IsDocument, none};
ghost use Rattle.tc_model.specs.Views as see;
ghost use Rattle.tc_model.specs.Views.{before};
ghost use Rattle.tc_model.specs.WellFormed.{IsSheet};

use crate::triples::{LONGEST, NoMachine, sheet_of, sheet_text};
use bumpalo::Bump;
use std::alloc::Global;
use std::test::Fail;
use tc_alpha::Alphabet;
use tc_base::NoMemory;
use tc_dead::{Spot, marked, places, plain};
use tc_model::{Grammar, Node, Pat, Sheet};
use tc_read::read_document;
use tc_rules::Rules;
use tc_run::run;

static NOTHING: Grammar<'static> = Grammar {
    start: Pat::NotAllowed,
    elements: &[],
};

/// The rules of a stylesheet, its spots in order, and documents with what comes of each where one spot after the other is
/// marked: names without namespaces, and in parentheses what stands in an element.
struct Case {
    rules: &'static str,
    spots: &'static [Spot],
    documents: &'static [(&'static str, &'static [&'static str])],
}

static CASES: [Case; 6] = [
    Case {
        rules: "<xsl:template match=\"/\"><r><xsl:apply-templates select=\"a/b\"/></r></xsl:template>\
                <xsl:template match=\"b\"><x/></xsl:template><xsl:template match=\"c\"><y/></xsl:template>",
        spots: &[Spot::Rule(1), Spot::Rule(2), Spot::Rule(3)],
        documents: &[
            ("<a/>", &["m(m())", "", ""]),
            ("<a><b/></a>", &["m(m())", "m(m())", ""]),
        ],
    },
    Case {
        rules: "<xsl:template match=\"a\"><xsl:choose><xsl:when test=\"not(b/c)\"><none/></xsl:when>\
                <xsl:otherwise><r><xsl:apply-templates select=\"b/c\"/></r></xsl:otherwise></xsl:choose></xsl:template>\
                <xsl:template match=\"c\">t</xsl:template>",
        spots: &[
            Spot::Rule(1),
            Spot::Rule(2),
            Spot::Branch(1),
            Spot::Branch(2),
        ],
        documents: &[
            ("<a/>", &["m(m())", "", "m(m())", ""]),
            (
                "<a><b><c/></b></a>",
                &["m(m())t", "m(m())t", "t", "m(m())t"],
            ),
        ],
    },
    Case {
        rules: "<xsl:template match=\"a|b\"><xsl:if test=\"b\">t</xsl:if></xsl:template>",
        spots: &[
            Spot::Rule(1),
            Spot::Rule(2),
            Spot::Branch(1),
            Spot::Branch(2),
        ],
        documents: &[
            ("<a/>", &["m(m())", "", "", ""]),
            ("<a><b/></a>", &["m(m())t", "t", "m(m())t", "t"]),
        ],
    },
    Case {
        rules: "<xsl:template match=\"a\"><xsl:call-template name=\"n\"/></xsl:template>\
                <xsl:template name=\"n\"><x>t</x></xsl:template><xsl:template name=\"o\"/>",
        spots: &[Spot::Rule(1), Spot::Named(1), Spot::Named(2)],
        documents: &[("<a/>", &["m(m())t", "m(m())t", "t"])],
    },
    Case {
        rules: "<xsl:template match=\"/\"><xsl:copy><xsl:choose><xsl:when test=\"a/b\"/><xsl:otherwise>t</xsl:otherwise>\
                </xsl:choose></xsl:copy></xsl:template>",
        spots: &[Spot::Rule(1), Spot::Branch(1), Spot::Branch(2)],
        documents: &[
            ("<a/>", &["m(m())w(t)", "w(t)", "w(m(m())t)"]),
            ("<a><b/></a>", &["m(m())w()", "w(m(m()))", "w()"]),
        ],
    },
    Case {
        rules: "<xsl:template match=\"*\"><xsl:copy><xsl:apply-templates/></xsl:copy></xsl:template>\
                <xsl:template match=\"z\"><y/></xsl:template>",
        spots: &[Spot::Rule(1), Spot::Rule(2)],
        documents: &[(
            "<m xmlns=\"urn:typecheck:dead\"><w/></m>",
            &["m(m())w(m(m(m())w(w())))", "w(m(w(w())))"],
        )],
    },
];

/// Puts trees behind a text.
fn show(text: &mut String, nodes: &[Node<'_>]) -> Result<(), NoMemory> {
    for node in nodes {
        match node {
            Node::Text(characters) => text.push_str(characters)?,
            Node::Elem(name, kids) => {
                text.push_str(name.local)?;
                text.push_str("(")?;
                show(text, kids)?;
                text.push_str(")")?;
            }
        }
    }
    Ok(())
}

/// What a document gives where a spot is marked.
fn result_of<'b>(
    alloc: Global,
    arena: &'b Bump,
    sheet: &Sheet<'b>,
    spot: Spot,
    document: &Node<'b>,
) -> Option<&'b [Node<'b>]>
    requires sheet { IsSheet (see.sheet sheet.now) }
    requires spot { Contains (spots_of (see.sheet sheet.now)) (seen spot) }
    requires document { IsDocument (before document.now none) }
{
    let Ok(marked) = marked(arena, sheet, spot) else {
        return None;
    };
    let Ok(plain) = plain(arena) else {
        return None;
    };
    let Ok(alphabet) = Alphabet::of(alloc, &NOTHING, &plain, &marked) else {
        return None;
    };
    let Ok(rules) = Rules::of(alloc, &marked, &alphabet) else {
        return None;
    };
    run(arena, &rules, &alphabet, document).ok()
}

/// Whether a document gives this where a spot is marked.
fn is_told<'b>(
    alloc: Global,
    arena: &'b Bump,
    sheet: &Sheet<'b>,
    spot: Spot,
    document: &str,
    told: &str,
) -> Result<bool, NoMemory>
    requires sheet { IsSheet (see.sheet sheet.now) }
    requires spot { Contains (spots_of (see.sheet sheet.now)) (seen spot) }
{
    if document.len() > LONGEST {
        return Ok(false);
    }
    let Ok(document) = read_document(arena, document.as_bytes()) else {
        return Ok(false);
    };
    let Some(nodes) = result_of(alloc, arena, sheet, spot, &document) else {
        return Ok(false);
    };
    let mut text = String::new(alloc);
    show(&mut text, nodes)?;
    Ok(text.as_str() == told)
}

/// Whether the spots are as told, and each document gives what is told where one spot after the other is marked.
fn is_case(alloc: Global, case: &Case) -> Result<bool, NoMemory> {
    let arena = Bump::new(alloc);
    let text = sheet_text(alloc, case.rules)?;
    let Ok(sheet) = sheet_of(&arena, text.as_str()) else {
        return Ok(false);
    };
    let spots = places(&arena, &sheet)?;
    if spots != case.spots {
        return Ok(false);
    }
    for (document, told) in case.documents {
        if told.len() != spots.len() {
            return Ok(false);
        }
        for (index, spot) in spots.iter().enumerate() {
            if !is_told(alloc, &arena, &sheet, *spot, document, told[index])? {
                return Ok(false);
            }
        }
    }
    Ok(true)
}

#[test]
fn marked_stylesheets_put_out_what_is_told(rt: HostRuntime) -> Result<(), Fail> {
    for case in &CASES {
        let is_so = is_case(rt.alloc(), case)?;
        assert!(rt; is_so, "{}", case.rules);
    }
    Ok(())
}
