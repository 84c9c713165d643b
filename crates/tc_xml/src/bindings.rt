// The prefixes that are bound where reading stands: one map for a whole document, in which each end tag takes
// back what its element declared (Namespaces in XML 1.0, 3 and 6.1).
// A declaration notes what it hides. An empty namespace name stands for none, so nothing is taken out of the
// map. A raw tree instead has a list of prefixes of its own for each element that declares one.
ghost use Rattle.std.specs.Prelude.{◌≡◌, [], Some, length, IfSome};
ghost use Rattle.std.specs.Option.{option_map};
ghost use Rattle.tc_model.specs.XmlTextScopes as xml;
ghost use Rattle.tc_xml.specs.Bindings.{Binds, TakesBack, unless_empty, shown, now_bound, hidden};
ghost use Rattle.tc_xml.specs.Bounds.{bound_to, named};

use crate::scopes::Names;
use crate::tags::first_names;
use bumpalo::Bump;
use tc_model::Binding;

/// Namespace names by prefix, an empty one where a prefix is bound to none; and for each declaration in scope,
/// the oldest one first, its prefix with what it was bound to before.
#[derive(Drop)]
pub(crate) struct Bindings<'b> {
    newest: Names<'b>,
    hidden: Vec<Binding<'b>, &'b Bump>,
}

/// How many prefixes are compared one after the other before one is looked up.
const FEW: usize = 8;

/// What is noted of a prefix.
fn noted<'b>(names: &Names<'b>, prefix: &str) -> Option<&'b str>
    ensures { option_map (λ u. u.now) result ≡ xml.uri_of (named names.now) prefix.now }
{
    for at in 0..FEW {
        let Some((bound, uri)) = names.get_index(at) else {
            return None;
        };
        if *bound == prefix {
            return Some(*uri);
        }
    }
    let uri = names.get(&prefix)?;
    Some(*uri)
}

/// The namespace name to which a prefix was bound, empty where it was bound to none.
fn kept_uri<'b>(old: Option<&'b str>) -> &'b str
    ensures { unless_empty (Some result.now) ≡ unless_empty (option_map (λ u. u.now) old.entry) }
{
    match old {
        Some(uri) => uri,
        None => "",
    }
}

impl<'b> Bindings<'b> {
    /// What is bound before any declaration.
    pub(crate) fn first(arena: &'b Bump) -> Option<Bindings<'b>>
        ensures bound { IfSome result (λ b. now_bound b ≡ xml.first_scope) }
        ensures kept { IfSome result (λ b. hidden b ≡ []) }
    {
        let Ok(newest) = first_names(arena) else {
            return None;
        };
        Some(Bindings {
            newest,
            hidden: Vec::new(arena),
        })
    }

    /// How many declarations are in scope.
    pub(crate) fn count(&self) -> usize
        ensures { result ≡ length (hidden self.now) }
    {
        self.hidden.len()
    }

    /// The namespace name to which a prefix is bound.
    pub(crate) fn uri_of(&self, prefix: &str) -> Option<&'b str>
        ensures { option_map (λ u. u.now) result ≡ shown (now_bound self.now) prefix.now }
    {
        let uri = noted(&self.newest, prefix)?;
        if uri == "" {
            return None;
        }
        Some(uri)
    }

    /// Binds a prefix until this is taken back.
    pub(crate) fn bind(&mut self, prefix: &'b str, uri: &'b str) -> Option<()>
        ensures { IfSome result (λ _. Binds self.old (bound_to prefix.now uri.now) self.new) }
    {
        let Ok(old) = self.newest.insert(prefix, uri) else {
            return None;
        };
        let uri = kept_uri(old);
        let Ok(()) = self.hidden.push(Binding { prefix, uri }) else {
            return None;
        };
        Some(())
    }

    /// Takes back all declarations but the first so many, the last one first.
    pub(crate) fn take_back(&mut self, count: usize) -> Option<()>
        ensures { IfSome result (λ _. TakesBack self.old count self.new) }
    {
        'back: while self.hidden.len() > count {
            let last = self.hidden.pop()?;
            let Ok(_) = self.newest.insert(last.prefix, last.uri) else {
                return None;
            };
        }
        Some(())
    }
}
