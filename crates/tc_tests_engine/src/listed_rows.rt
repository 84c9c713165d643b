//! The rows of a stylesheet that is safe and of one that isn't, as they are listed, by hand: of an element around any number
//! of elements, for each of which one is put out.
ghost use Rattle.std.specs.Prelude.{◌≤◌};

use crate::rows::machine_with;
use bumpalo::Bump;
use std::alloc::Global;
use tc_cert::write_cert;
use tc_close::{CloseFault, list_rows};

const INPUT: &str = "element a{element b{empty}*}";

const OUTPUT: &str = "element r{element x{empty}*}";

const SAFE: &str =
    "<xsl:template match=\"/\"><r><xsl:apply-templates select=\"a/b\"/></r></xsl:template><xsl:template match=\"b\"><x/></xsl:template>";

/// The output allows no such element, so no pair is led by what is put out on elements of the input.
const UNSAFE: &str =
    "<xsl:template match=\"/\"><r><xsl:apply-templates select=\"a/b\"/></r></xsl:template><xsl:template match=\"b\"><y/></xsl:template>";

/// The certificate's text of the rows that are listed.
fn listed(alloc: Global, rules: &str) -> Option<Vec<u8>> {
    let arena = Bump::new(alloc);
    let Some(machine) = machine_with(alloc, &arena, INPUT, OUTPUT, rules) else {
        return None;
    };
    let Ok(Some(rows)) = list_rows(alloc, &machine, 4000) else {
        return None;
    };
    match write_cert(alloc, &rows) {
        Ok(text) => Some(text),
        Err(_) => None,
    }
}

/// Whether this text is that of the rows that are listed.
fn is_listed(alloc: Global, rules: &str, text: &str) -> bool {
    match listed(alloc, rules) {
        Some(bytes) => bytes.as_slice() == text.as_bytes(),
        None => false,
    }
}

#[test]
fn lists_rows_of_what_is_safe(rt: HostRuntime) {
    let text =
        "xslt-typecheck certificate 2\noutputs 2\nm 0>0 1>1 2>2 3>3 4>4\nm 2>3 3>3\ntrees 3\nt 0 0 1 0,0,0 -\nT 0 0 1 0:1,1:1 -\nT 0 0 2 1:0,2:1 -\nhedges 2\nh 0 0 0,2 0,0,0 -\nH 0 0 1 0:1,2:1 -\nend\n";
    assert!(rt; is_listed(rt.alloc(), SAFE, text));
}

#[test]
fn lists_rows_of_what_is_unsafe(rt: HostRuntime) {
    let text =
        "xslt-typecheck certificate 2\noutputs 2\nm\nm 0>0 1>1 2>2 3>3 4>4\ntrees 3\nt 0 0 1 0,0,1 -\nT 0 0 1 0:1,1:1 -\nT 0 0 2 0:0,2:0 -\nhedges 2\nh 0 0 0,2 1,1,1 -\nH 0 0 1 0:0,2:0 -\nend\n";
    assert!(rt; is_listed(rt.alloc(), UNSAFE, text));
}

/// How it is told that there are more rows than so many.
fn fault_at(alloc: Global, most: u32) -> Option<CloseFault>
    requires { most ≤ 4000 }
{
    let arena = Bump::new(alloc);
    let Some(machine) = machine_with(alloc, &arena, INPUT, OUTPUT, UNSAFE) else {
        return None;
    };
    match list_rows(alloc, &machine, most) {
        Ok(_) => None,
        Err(fault) => Some(fault),
    }
}

#[test]
fn lists_no_more_rows_than_allowed(rt: HostRuntime) {
    assert!(rt; fault_at(rt.alloc(), 2) == Some(CloseFault::TooManyTrees));
    assert!(rt; fault_at(rt.alloc(), 3).is_none());
}
