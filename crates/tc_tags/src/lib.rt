//! Tags of an XML text, kept in rooms that are taken once: their form, the names and declarations that are in scope, and
//! what their names mean (XML 1.0, Fifth Edition, 3.1; Namespaces in XML 1.0).
#![tactic(auto)]

mod attributes;
mod chains;
mod distinct;
mod names;
mod rooms;
mod scopes;
mod tags;
mod values;

pub use attributes::Attributes;
pub use distinct::all_differ;
pub use names::{Room, Span, WrittenName};
pub use rooms::{Rooms, text_of};
pub use scopes::Scopes;
pub use tags::{Form, NoForm, form_of, is_end_tag, is_plain_end_tag};
pub use values::push_char;
