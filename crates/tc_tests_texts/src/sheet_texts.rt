//! Texts of stylesheets, by hand.

use crate::repeated::joined;
use bumpalo::Bump;
use std::alloc::Global;
use std::process::Abort;
use std::test::Fail;
use tc_base::{Place, Why};
use tc_read::TextFault::Refused;
use tc_read::{Reason, TextFault, read_sheet};

/// The stylesheet of an article that becomes XHTML, up to the body of its lists.
const ARTICLE: &str = r#"<?xml version="1.0" encoding="UTF-8"?>
<xsl:stylesheet version="1.0" xmlns="http://www.w3.org/1999/xhtml"
    xmlns:xsl="http://www.w3.org/1999/XSL/Transform">
<xsl:output method="xml"/>
<xsl:template match="@*|node()"><xsl:copy>
  <xsl:apply-templates select="@*|node()"/></xsl:copy></xsl:template>
<xsl:template match="article"><html>
  <head><title><xsl:value-of select="title"/></title></head>
  <body><xsl:apply-templates/></body></html></xsl:template>
<xsl:template match="title"><h1><xsl:apply-templates/></h1></xsl:template>
<xsl:template match="section"><div class="section">
  <xsl:apply-templates/></div></xsl:template>
<xsl:template match="para"><p><xsl:apply-templates/></p></xsl:template>
<xsl:template match="item"><li><xsl:apply-templates/></li></xsl:template>
<xsl:template match="emph"><em><xsl:apply-templates/></em></xsl:template>
<xsl:template match="itemlist">"#;

const END_OF_ARTICLE: &str = "</xsl:template>\n</xsl:stylesheet>\n";

const START: &str =
    "<xsl:stylesheet version=\"1.0\" xmlns:xsl=\"http://www.w3.org/1999/XSL/Transform\">";

const END: &str = "</xsl:stylesheet>";

/// The parts of a text, each with how many times it stands there.
type Parts = &'static [(&'static str, usize)];

/// A stylesheet in parts, and how many rules it has, or why there are none.
type Row = (Parts, Result<usize, TextFault>);

/// The stylesheets of articles, which have a rule for lists with seven others, and one that copies.
static READ: [Row; 3] = [
    (
        &[
            (ARTICLE, 1),
            ("<ul><xsl:apply-templates/></ul>", 1),
            (END_OF_ARTICLE, 1),
        ],
        Ok(8),
    ),
    (
        &[
            (ARTICLE, 1),
            (
                "<xsl:if test=\"item\"><ul><xsl:apply-templates/></ul></xsl:if>",
                1,
            ),
            (END_OF_ARTICLE, 1),
        ],
        Ok(8),
    ),
    (
        &[
            (START, 1),
            (
                "<xsl:template match=\"@*|node()\"><xsl:copy><xsl:apply-templates select=\"@*|node()\"/></xsl:copy></xsl:template>",
                1,
            ),
            (END, 1),
        ],
        Ok(1),
    ),
];

/// Stylesheets that aren't read, with one that has a literal element of such a name.
static UNREAD: [Row; 4] = [
    (
        &[
            (START, 1),
            (
                "<xsl:template match=\"/\"><xsl:variable name=\"v\"/><r/></xsl:template>",
                1,
            ),
            (END, 1),
        ],
        Err(Refused(Reason::Unsupported(Why::XslVariable), Place(103))),
    ),
    (
        &[
            (START, 1),
            ("<xsl:template match=\"/\"><variable/></xsl:template>", 1),
            (END, 1),
        ],
        Ok(1),
    ),
    (
        &[
            (START, 1),
            ("<xsl:template match=\"/\">&nbsp;</xsl:template>", 1),
            (END, 1),
        ],
        Err(Refused(Reason::Unsupported(Why::EntityReference), Place(103))),
    ),
    (
        &[(START, 1), ("<xsl:template match=\"p:a\"/>", 1), (END, 1)],
        Err(Refused(Reason::Malformed, Place(93))),
    ),
];

/// What stands before and behind parentheses in a test.
const BEFORE_TEST: &str = "<xsl:template match=\"/\"><xsl:if test=\"";

const BEHIND_TEST: &str = "\"><r/></xsl:if></xsl:template>";

/// What stands before and behind brackets in a select.
const BEFORE_SELECT: &str = "<xsl:template match=\"/\"><xsl:apply-templates select=\"a";

const BEHIND_SELECT: &str = "\"/></xsl:template>";

/// Parentheses and brackets within one another.
static NESTED: [Row; 4] = [
    (
        &[
            (START, 1),
            (BEFORE_TEST, 1),
            ("(", 1999),
            ("a", 1),
            (")", 1999),
            (BEHIND_TEST, 1),
            (END, 1),
        ],
        Ok(1),
    ),
    (
        &[
            (START, 1),
            (BEFORE_TEST, 1),
            ("(", 2001),
            ("a", 1),
            (")", 2001),
            (BEHIND_TEST, 1),
            (END, 1),
        ],
        Err(Refused(Reason::TooDeep, Place(111))),
    ),
    (
        &[
            (START, 1),
            (BEFORE_SELECT, 1),
            ("[a", 2000),
            ("a", 1),
            ("]", 2000),
            (BEHIND_SELECT, 1),
            (END, 1),
        ],
        Ok(1),
    ),
    (
        &[
            (START, 1),
            (BEFORE_SELECT, 1),
            ("[a", 2001),
            ("a", 1),
            ("]", 2001),
            (BEHIND_SELECT, 1),
            (END, 1),
        ],
        Err(Refused(Reason::TooDeep, Place(124))),
    ),
];

/// How many rules a text's stylesheet has, or why there is none.
fn rules(alloc: Global, text: &str) -> Result<usize, TextFault> {
    if text.len() > 1000000 {
        return Err(TextFault::NoMemory);
    }
    let arena = Bump::new(alloc);
    let sheet = read_sheet(&arena, text.as_bytes())?;
    Ok(sheet.rules.len())
}

/// Asserts of each stylesheet how many rules it has, or why there are none.
fn assert_rules(rt: &impl Abort, alloc: Global, rows: &[Row]) -> Result<(), Fail> {
    for (parts, wanted) in rows {
        let text = joined(alloc, parts)?;
        assert!(rt; rules(alloc, text.as_str()) == *wanted, "{parts:?}");
    }
    Ok(())
}

#[test]
fn articles_and_copies_are_read(rt: HostRuntime) -> Result<(), Fail> {
    assert_rules(&rt, rt.alloc(), &READ)
}

#[test]
fn what_is_not_read_is_told_at_its_place(rt: HostRuntime) -> Result<(), Fail> {
    assert_rules(&rt, rt.alloc(), &UNREAD)
}

#[test]
fn nesting_is_read_two_thousand_deep(rt: HostRuntime) -> Result<(), Fail> {
    assert_rules(&rt, rt.alloc(), &NESTED)
}
