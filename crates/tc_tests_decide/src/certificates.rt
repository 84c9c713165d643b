// Tests of `prove`, `verify` and `upgrade`.
use crate::texts::{bytes_of, compact, prints, sheet_of};
use bumpalo::Bump;
use std::alloc::Global;
use tc_decide::{Output, Proof, Rejection, Upgrade, Verification, prove, upgrade, verify};

const INPUT: &str = "element a{element b{empty}*}";

const OUTPUT: &str = "element r{element x{empty}*}";

/// With one `x` at least.
const NARROW: &str = "element r{element x{empty}+}";

const RULES: &str =
    "<xsl:template match=\"/\"><r><xsl:apply-templates select=\"a/b\"/></r></xsl:template>\
    <xsl:template match=\"b\"><x/></xsl:template>";

/// The certificate in version 1.
const WHOLE: &str = "xslt-typecheck certificate 1\noutputs 2\nm 0>0 1>1 2>2 3>3 4>4\nm 2>3 3>3\n\
    trees 3\nt 0 0 1 0,0,0 -\nt 0 0 1 1,1,0 -\nt 0 0 2 1,0,1 -\n\
    hedges 2\nh 0 0 0,2 0,0,0 -\nh 0 0 1 1,0,1 -\nend\n";

/// In version 2.
const CHANGES: &str = "xslt-typecheck certificate 2\noutputs 2\nm 0>0 1>1 2>2 3>3 4>4\nm 2>3 3>3\n\
    trees 3\nt 0 0 1 0,0,0 -\nT 0 0 1 0:1,1:1 -\nT 0 0 2 1:0,2:1 -\n\
    hedges 2\nh 0 0 0,2 0,0,0 -\nH 0 0 1 0:1,2:1 -\nend\n";

/// With a change that is none.
const UNCHANGED: &str =
    "xslt-typecheck certificate 2\noutputs 2\nm 0>0 1>1 2>2 3>3 4>4\nm 2>3 3>3\n\
    trees 3\nt 0 0 1 0,0,0 -\nT 0 0 1 0:0,1:1 -\nT 0 0 2 1:0,2:1 -\n\
    hedges 2\nh 0 0 0,2 0,0,0 -\nH 0 0 1 0:1,2:1 -\nend\n";

/// Without the row of an element `b`.
const MISSING: &str = "xslt-typecheck certificate 1\noutputs 2\nm 0>0 1>1 2>2 3>3 4>4\nm 2>3 3>3\n\
    trees 2\nt 0 0 1 0,0,0 -\nt 0 0 1 1,1,0 -\n\
    hedges 2\nh 0 0 0,2 0,0,0 -\nh 0 0 1 1,0,1 -\nend\n";

/// What is told where there is a certificate with this text, or a document with this result.
#[derive(Clone, Copy)]
enum Told<'t> {
    Certified(&'t str),
    Unsafe(&'t str, &'t str),
}

/// Whether a proof is told.
fn is_told(alloc: Global, proof: &Proof<'_>, told: &Told<'_>) -> bool {
    match proof {
        Proof::Certified(bytes) => match told {
            Told::Certified(text) => bytes.as_slice() == text.as_bytes(),
            Told::Unsafe(_, _) => false,
        },
        Proof::Unsafe(document, Output::Shown(nodes)) => match told {
            Told::Unsafe(text, result) => {
                prints(alloc, &[*document], text) && prints(alloc, nodes, result)
            }
            Told::Certified(_) => false,
        },
        Proof::Unsafe(_, Output::TooLarge) => false,
    }
}

/// Whether `prove` of these schemas tells that.
fn proves(alloc: Global, output: &str, told: &Told<'_>) -> Option<bool> {
    let Ok(text) = sheet_of(alloc, RULES) else {
        return None;
    };
    let input = compact(INPUT)?;
    let output = compact(output)?;
    let sheet = bytes_of(&text)?;
    let arena = Bump::new(alloc);
    match prove(&arena, alloc, 2_000, input, output, sheet) {
        Ok(proof) => Some(is_told(alloc, &proof, told)),
        Err(_) => None,
    }
}

#[test]
fn safe_stylesheets_have_certificates(rt: HostRuntime) {
    assert!(rt; proves(rt.alloc(), OUTPUT, &Told::Certified(CHANGES)) == Some(true));
    assert!(rt; proves(rt.alloc(), NARROW, &Told::Unsafe("<a/>", "<r/>")) == Some(true));
}

/// Whether it is rejected at this line, an element of this local name being missing around it, or, without a name, as no
/// certificate's text; accepted where the line is 0.
fn is_why(verification: &Verification<'_>, line: u32, local: &str) -> bool {
    match verification {
        Verification::Accepted => line == 0,
        Verification::Rejected(Rejection::Form(first)) => *first == line && local.is_empty(),
        Verification::Rejected(Rejection::Wrap(first, name)) => {
            *first == line && name.uri.is_empty() && name.local == local
        }
        Verification::Rejected(_) => false,
    }
}

/// Whether `verify` of a certificate tells that.
fn verifies(alloc: Global, certificate: &str, line: u32, local: &str) -> Option<bool> {
    let Ok(text) = sheet_of(alloc, RULES) else {
        return None;
    };
    let input = compact(INPUT)?;
    let output = compact(OUTPUT)?;
    let sheet = bytes_of(&text)?;
    let bytes = bytes_of(certificate)?;
    let arena = Bump::new(alloc);
    match verify(&arena, alloc, input, output, sheet, bytes) {
        Ok(verification) => Some(is_why(&verification, line, local)),
        Err(_) => None,
    }
}

#[test]
fn certificates_are_accepted_or_rejected(rt: HostRuntime) {
    let alloc = rt.alloc();
    assert!(rt; verifies(alloc, WHOLE, 0, "") == Some(true));
    assert!(rt; verifies(alloc, CHANGES, 0, "") == Some(true));
    assert!(rt; verifies(alloc, MISSING, 9, "b") == Some(true));
    assert!(rt; verifies(alloc, UNCHANGED, 7, "") == Some(true));
}

/// Whether `upgrade` gives this text, or this line that isn't as it must be.
fn upgrades(alloc: Global, certificate: &str, text: &str, line: u32) -> Option<bool> {
    let bytes = bytes_of(certificate)?;
    match upgrade(alloc, bytes) {
        Ok(Upgrade::Text(anew)) => Some(anew.as_slice() == text.as_bytes()),
        Ok(Upgrade::Malformed(first)) => Some(first == line),
        Err(_) => None,
    }
}

#[test]
fn certificates_are_written_anew(rt: HostRuntime) {
    let alloc = rt.alloc();
    assert!(rt; upgrades(alloc, WHOLE, CHANGES, 0) == Some(true));
    assert!(rt; upgrades(alloc, CHANGES, CHANGES, 0) == Some(true));
    assert!(rt; upgrades(alloc, UNCHANGED, "", 7) == Some(true));
}
