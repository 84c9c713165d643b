// Tests of `check` on an article, on texts that are refused, and of `demo`.
use crate::commands::Part::{Once, Times};
use crate::commands::{Case, Text, assert_cases, command_answers, status_of};
use std::alloc::Global;
use std::test::Fail;
use tc_base::NoMemory;
use tc_top::Status;

const CHECK: &[&str] = &["check", "I", "O", "S"];

const NO_RULES: &str =
    "<xsl:stylesheet version=\"1.0\" xmlns:xsl=\"http://www.w3.org/1999/XSL/Transform\"/>";

const ARTICLE: &str = "datatypes xsd = \"http://www.w3.org/2001/XMLSchema-datatypes\"
start = article
article = element article { title, section+ }
title = element title { inline }
section = element section {
  attribute id { xsd:ID }?, title, (para | itemlist)* }
para = element para { inline }
itemlist = element itemlist { item* }
item = element item { para+ }
inline = mixed { emph* }
emph = element emph { text }
";

const PAGE: &str = "default namespace = \"http://www.w3.org/1999/xhtml\"
start = element html {
  element head { element title { text } }, element body { block+ } }
block = element h1 { inline } | element p { inline }
  | element ul { element li { block+ }+ } | element div { block+ }
inline = mixed { element em { text }* }
";

const TO_PAGE: &str = "<?xml version=\"1.0\" encoding=\"UTF-8\"?>
<xsl:stylesheet version=\"1.0\" xmlns=\"http://www.w3.org/1999/xhtml\"
    xmlns:xsl=\"http://www.w3.org/1999/XSL/Transform\">
<xsl:output method=\"xml\"/>
<xsl:template match=\"@*|node()\"><xsl:copy>
  <xsl:apply-templates select=\"@*|node()\"/></xsl:copy></xsl:template>
<xsl:template match=\"article\"><html>
  <head><title><xsl:value-of select=\"title\"/></title></head>
  <body><xsl:apply-templates/></body></html></xsl:template>
<xsl:template match=\"title\"><h1><xsl:apply-templates/></h1></xsl:template>
<xsl:template match=\"section\"><div class=\"section\">
  <xsl:apply-templates/></div></xsl:template>
<xsl:template match=\"para\"><p><xsl:apply-templates/></p></xsl:template>
<xsl:template match=\"item\"><li><xsl:apply-templates/></li></xsl:template>
<xsl:template match=\"emph\"><em><xsl:apply-templates/></em></xsl:template>
";

const END: &str = "</xsl:template>\n</xsl:stylesheet>\n";

/// A pattern with too many nodes.
const LARGE: Text<'static> = &[Once("element a{empty"), Times("|empty", 65_534), Once("}")];

/// An article that becomes a page, by two rules of its lists, and a limit that waits for all texts.
static CASES: [Case<'static>; 4] = [
    Case {
        what: "lists may be without items",
        words: CHECK,
        files: &[
            ("I", &[Once(ARTICLE)]),
            ("O", &[Once(PAGE)]),
            (
                "S",
                &[
                    Once(TO_PAGE),
                    Once("<xsl:template match=\"itemlist\">"),
                    Once("<ul><xsl:apply-templates/></ul>"),
                    Once(END),
                ],
            ),
        ],
        status: Status::No,
        text: &[
            Once("unsafe\n"),
            Once("document <article><title/><section><title/><itemlist/></section></article>\n"),
            Once("output <html xmlns=\"http://www.w3.org/1999/xhtml\"><head><title/></head>"),
            Once("<body><h1/><div><h1/><ul/></div></body></html>\n"),
        ],
    },
    Case {
        what: "lists without items are left out",
        words: CHECK,
        files: &[
            ("I", &[Once(ARTICLE)]),
            ("O", &[Once(PAGE)]),
            (
                "S",
                &[
                    Once(TO_PAGE),
                    Once("<xsl:template match=\"itemlist\">"),
                    Once("<xsl:if test=\"item\"><ul><xsl:apply-templates/></ul></xsl:if>"),
                    Once(END),
                ],
            ),
        ],
        status: Status::Yes,
        text: &[Once("safe trees 16 hedges 27 outputs 10\n")],
    },
    Case {
        what: "a pattern is too large",
        words: CHECK,
        files: &[
            ("I", LARGE),
            ("O", &[Once("element a{empty}")]),
            ("S", &[Once(NO_RULES)]),
        ],
        status: Status::Limit,
        text: &[Once("limit pattern 65536\n")],
    },
    Case {
        what: "limits wait for all texts",
        words: CHECK,
        files: &[
            ("I", LARGE),
            ("O", &[Once("element a{empty}")]),
            ("S", &[Once("<r")]),
        ],
        status: Status::Refused,
        text: &[Once("refused S malformed at 2\n")],
    },
];

#[test]
fn articles_become_pages_and_limits_wait(rt: HostRuntime) -> Result<(), Fail> {
    assert_cases(&rt, rt.alloc(), &CASES)
}

/// Whether `check I O S` of these files writes this text, with its status.
fn answers(
    alloc: Global,
    input: &[u8],
    output: &[u8],
    sheet: &[u8],
    text: &str,
) -> Result<bool, NoMemory> {
    let files = [("I", input), ("O", output), ("S", sheet)];
    command_answers(alloc, CHECK, &files, status_of(text), text)
}

const GOOD: &[u8] = b"element a{empty}";

const MANY: &[u8] = b"element a{empty|empty}";

/// Inputs, outputs, and what is written.
static REFUSED: [(&[u8], &[u8], &str); 4] = [
    (b"\xFF", GOOD, "refused I malformed at 0\n"),
    (b"\xFF", b"a b", "refused I malformed at 0\n"),
    (GOOD, b"start = b", "refused O undefined at 8\n"),
    (MANY, b"start = empty", "refused O bad-start at 0\n"),
];

#[test]
fn operands_are_refused_in_order(rt: HostRuntime) -> Result<(), Fail> {
    for (input, output, text) in &REFUSED {
        assert!(rt;
            answers(rt.alloc(), input, output, NO_RULES.as_bytes(), text)?,
            "{text}"
        );
    }
    Ok(())
}

/// Whether the demonstration of this size is safe, with the rows that it has.
fn is_safe(alloc: Global, size: u32) -> Result<bool, Fail> {
    let number = format!(in alloc; "{size}")?;
    let more = size.saturating_add(2);
    let line = format!(in alloc; "safe trees {size} hedges {more} outputs {more}\n")?;
    let words = ["demo", number.as_str()];
    let safe = command_answers(alloc, &words, &[], Status::Yes, line.as_str())?;
    Ok(safe)
}

#[test]
fn demonstrations_are_safe(rt: HostRuntime) -> Result<(), Fail> {
    for size in 1..=40 {
        assert!(rt; is_safe(rt.alloc(), size)?, "{size}");
    }
    Ok(())
}
