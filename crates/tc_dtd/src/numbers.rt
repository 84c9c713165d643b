// Names and their numbers.
ghost use Rattle.std.specs.Prelude.{◌≡◌, [], map, IfOk, OnOk};
ghost use Rattle.tc_dtd.specs.Numbers.{number_in, AreApart};
ghost use Rattle.tc_dtd.specs.Views.{declaration, names};

use crate::declarations::Decl;
use bumpalo::Bump;
use indexmap::IndexSet;
use std::hash::{BuildHasherDefault, FoldHasher};
use tc_base::NoMemory;

/// The names of declarations, which are numbered from 0 in their order.
pub(crate) type Names<'b> = IndexSet<&'b str, BuildHasherDefault<FoldHasher>, &'b Bump>;

/// The names of declarations of which no two have one name.
pub(crate) fn names_of<'b>(arena: &'b Bump, decls: &[Decl<'b>]) -> Result<Names<'b>, NoMemory>
    requires { AreApart (map (λ x. x.name) (map declaration decls.now)) }
    ensures { IfOk result (λ s. names s.keys ≡ map (λ x. x.name) (map declaration decls.now)) }
{
    let mut found: Names<'b> = IndexSet::new(arena);
    put_names(&mut found, decls)?;
    Ok(found)
}

/// Puts the names of declarations, of which no two have one name, where none is yet.
fn put_names<'b>(found: &mut Names<'b>, decls: &[Decl<'b>]) -> Result<(), NoMemory>
    requires none { found.old.keys ≡ [] }
    requires apart { AreApart (map (λ x. x.name) (map declaration decls.now)) }
    ensures { OnOk result (names found.new.keys ≡ map (λ x. x.name) (map declaration decls.now)) }
{
    for decl in decls {
        let _is_new = found.insert(decl.name)?;
    }
    Ok(())
}

/// The number of a name.
pub(crate) fn number_of<'b>(found: &Names<'b>, name: &'b str) -> Option<usize>
    ensures { result ≡ number_in (names found.now.keys) name.now }
{
    found.get_index_of(&name)
}
