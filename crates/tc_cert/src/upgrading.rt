// The text of a certificate in version 2, from either version.
// A text of version 2 is its own upgrade and goes out as it was read. Where no kind of line has two rows the
// versions differ in their first line alone.
ghost use Rattle.std.specs.Prelude.{◌≤◌, IfOk, IfErr, MatchBool, length};
ghost use Rattle.tc_base.specs.declared.limits.TheConstants.{LONGEST_FILE};
ghost use Rattle.tc_cert.specs.Readings.{BeginsByChanges, IsNotUpgraded, IsUpgraded};

use crate::faults::UpgradeFault;
use crate::fitting::first_unfit;
use crate::ranges::Ranges;
use crate::reader::after_text;
use crate::reading::read_cert;
use crate::writing::write_cert;
use std::alloc::Global;

/// The text in version 2 of a certificate that is given in either version, of at most 67,108,864 bytes. A text of
/// version 2 is its own, and isn't unfolded.
///
/// `Form` comes exactly where the bytes are no certificate's text, and `TooLong` exactly where they are one whose text
/// in version 2 has more bytes.
pub fn upgrade(alloc: Global, text: &[u8]) -> Result<Vec<u8>, UpgradeFault>
    requires { length text.now ≤ LONGEST_FILE }
    ensures ok { IfOk result (λ out. IsUpgraded text.now out.items) }
    ensures fault { IfErr result (λ e. IsNotUpgraded text.now e) }
{
    if is_by_changes(text) {
        own(alloc, text)
    } else {
        rewritten(alloc, text)
    }
}

/// Whether the text begins as one of version 2.
fn is_by_changes(text: &[u8]) -> bool
    ensures { MatchBool result (BeginsByChanges text.now) (BeginsByChanges text.now → ⊥) }
{
    match after_text(text, b"xslt-typecheck certificate 2\n") {
        Some(_) => true,
        None => false,
    }
}

/// The text of version 2 itself.
fn own(alloc: Global, text: &[u8]) -> Result<Vec<u8>, UpgradeFault>
    requires short { length text.now ≤ LONGEST_FILE }
    requires begins { BeginsByChanges text.now }
    ensures ok { IfOk result (λ out. IsUpgraded text.now out.items) }
    ensures fault { IfErr result (λ e. IsNotUpgraded text.now e) }
{
    let ranges = Ranges {
        output_states: 0,
        patterns: 0,
        input_states: 0,
        outs: 0,
        looks: 0,
    };
    first_unfit(alloc, text, ranges)?;
    let mut out = Vec::new(alloc);
    out.extend_from_slice(text)?;
    Ok(out)
}

/// The text in version 2 of a text of version 1.
fn rewritten(alloc: Global, text: &[u8]) -> Result<Vec<u8>, UpgradeFault>
    requires { length text.now ≤ LONGEST_FILE }
    ensures ok { IfOk result (λ out. IsUpgraded text.now out.items) }
    ensures fault { IfErr result (λ e. IsNotUpgraded text.now e) }
{
    let cert = read_cert(alloc, text)?;
    Ok(write_cert(alloc, &cert)?)
}
