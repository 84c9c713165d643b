// Why a document that comes in pieces is given up.

use tc_base::{Place, Why};

/// Why a document is given up: the first place at which reading stops decides, and what comes behind it isn't looked
/// at. A place counts the bytes that stand before it, from the document's first one on.
#[derive(Clone, Copy, Debug, PartialEq, Eq)]
pub enum StreamFault {
    /// It breaks XML 1.0 or Namespaces in XML 1.0, at the end of a piece however it goes on; reading stops at the place.
    Malformed(Place),
    /// It holds a construct that isn't read, which begins at the place.
    Unsupported(Place, Why),
    /// An element stands within 2,000 others; its start tag begins at the place.
    TooDeep(Place),
    /// A tag (XML 1.0, 3.1) has more than 65,536 bytes from its `<` through its `>`: it has no end among the first ones,
    /// whatever else is wrong in them.
    TagTooLong,
    /// The names of the elements that are open, with the prefixes and namespace names that their tags declare
    /// (Namespaces in XML 1.0, 3), have more than 65,536 bytes.
    NamesTooLong,
}
