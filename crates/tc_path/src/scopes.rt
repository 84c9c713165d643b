// The prefixes in scope, looked up for the tokens of a text (Namespaces in XML 1.0, 6.1).
ghost use Rattle.std.specs.Prelude.{map};
ghost use Rattle.tc_model.specs.Views.{bound};
ghost use Rattle.tc_path.specs.Known.{AreRight};

use crate::PathFault;
use crate::known::{Known, known_in, uri_among};
use crate::token::Token;
use bumpalo::Bump;
use tc_model::Binding;

/// The prefixes in scope, and the namespace names of some of them by prefix.
#[derive(Drop)]
pub(crate) struct Scope<'s, 'b> {
    bindings: &'s [Binding<'b>],
    known: Known<'s, 'b>,
    ghost right: { AreRight (map bound bindings.now) known },
}

impl<'s, 'b> Scope<'s, 'b> {
    ghost use Rattle.std.specs.Prelude.{◌≡◌, None, Some, IfOk, IfErr, MatchOption, map};
    ghost use Rattle.tc_model.specs.Views.{bound};
    ghost use Rattle.tc_model.specs.XmlTextScopes as xml;
    ghost use Rattle.tc_path.specs.Scopes.{in_scope};
    ghost use Rattle.tc_path.specs.declared.PathFault.TheVariants.{NoMemory};

    /// What these bindings put in scope, for a text of these tokens.
    pub(crate) fn of(
        arena: &'s Bump,
        bindings: &'s [Binding<'b>],
        tokens: &[Token<'s>],
    ) -> Result<&'s Scope<'s, 'b>, PathFault>
        ensures ok { IfOk result (λ s. in_scope s.now ≡ map bound bindings.now) }
        ensures no { IfErr result (λ e. e ≡ NoMemory) }
    {
        let known = known_in(arena, bindings, tokens)?;
        let scope: &'s Scope<'s, 'b> = arena.try_alloc(Scope { bindings, known })?;
        Ok(scope)
    }

    /// The namespace name to which a prefix is bound.
    pub(crate) fn uri_of(&self, prefix: &str) -> Option<&'b str>
        ensures { MatchOption result (xml.uri_of (in_scope self.now) prefix.now ≡ None)
            (λ uri. xml.uri_of (in_scope self.now) prefix.now ≡ Some uri.now) }
    {
        match self.known.get(prefix) {
            Some(found) => *found,
            None => uri_among(self.bindings, prefix),
        }
    }
}
