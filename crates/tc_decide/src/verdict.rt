// What is found of texts.
use crate::rejection::Rejection;
use tc_close::Counts;
use tc_model::Node;

/// Whether a stylesheet is safe between two schemas.
#[derive(Clone, Copy)]
pub enum Verdict<'b> {
    /// Every document that is valid for the input has a valid result, and there are so many rows.
    Safe(Counts),
    /// This document is valid for the input, and its result isn't valid for the output.
    Unsafe(Node<'b>, Output<'b>),
}

/// Whether a stylesheet is safe between two schemas, with a certificate where it is.
#[derive(Drop)]
pub enum Proof<'b> {
    /// Every document that is valid for the input has a valid result, by the certificate with this text.
    Certified(Vec<u8>),
    /// This document is valid for the input, and its result isn't valid for the output.
    Unsafe(Node<'b>, Output<'b>),
}

/// Whether a text is that of a certificate.
#[derive(Clone, Copy)]
pub enum Verification<'b> {
    /// It is: every document that is valid for the input has a valid result.
    Accepted,
    /// It isn't, for this reason.
    Rejected(Rejection<'b>),
}

/// What a certificate's text is written anew as.
#[derive(Drop)]
pub enum Upgrade {
    /// This text, by the changes of rows.
    Text(Vec<u8>),
    /// None, as it is no certificate's text: this is the first line that isn't as it must be.
    Malformed(u32),
}

/// Whether a schema is included in another.
#[derive(Clone, Copy)]
pub enum Inclusion<'b> {
    /// Each document that is valid for the first is valid for the second, and there are so many rows of its trees, and of
    /// its lists of trees.
    Included(u32, u32),
    /// This document is valid for the first alone.
    Not(Node<'b>),
}

/// Whether two schemas have the same valid documents.
#[derive(Clone, Copy)]
pub enum Equality<'b> {
    /// They have.
    Same,
    /// This document is valid for the first alone.
    FirstOnly(Node<'b>),
    /// This document is valid for the second alone.
    SecondOnly(Node<'b>),
}

/// The result of a document that is shown.
#[derive(Clone, Copy)]
pub enum Output<'b> {
    /// Its trees.
    Shown(&'b [Node<'b>]),
    /// None: the run that makes it passes a limit.
    TooLarge,
}
