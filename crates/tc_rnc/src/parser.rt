// What a schema is read with.
use crate::scopes::Scope;
use crate::tokens::End;
use bumpalo::Bump;

/// Reads phrases from tokens: where syntax trees go, what is in scope, and where the tokens end.
#[derive(Drop)]
pub struct Parser<'b> {
    pub arena: &'b Bump,
    pub scope: Scope<'b>,
    pub end: End,
}
