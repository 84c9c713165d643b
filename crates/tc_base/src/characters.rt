//! The classes of characters of XML 1.0.

ghost use Rattle.std.specs.Prelude.{◌≡◌};
ghost use Rattle.tc_base.specs.Characters as class;

/// Whether a document may hold this character: `Char` (XML 1.0, Fifth Edition, 2.2).
pub fn is_char(c: char) -> bool
    ensures { result ≡ class.is_char c }
{
    matches!(
        c,
        '\u{9}' | '\u{A}' | '\u{D}' | '\u{20}'..='\u{D7FF}' | '\u{E000}'..='\u{FFFD}' | '\u{10000}'..='\u{10FFFF}'
    )
}

/// Whether this character is white space: a character of `S` (XML 1.0, Fifth Edition, 2.3).
pub fn is_white(c: char) -> bool
    ensures { result ≡ class.is_white c }
{
    matches!(c, '\u{20}' | '\u{9}' | '\u{D}' | '\u{A}')
}

/// Whether a name may begin with this character: `NameStartChar` (XML 1.0, Fifth Edition, 2.3).
pub fn is_name_start(c: char) -> bool
    ensures { result ≡ class.is_name_start c }
{
    matches!(
        c,
        ':' | 'A'..='Z'
            | '_'
            | 'a'..='z'
            | '\u{C0}'..='\u{D6}'
            | '\u{D8}'..='\u{F6}'
            | '\u{F8}'..='\u{2FF}'
            | '\u{370}'..='\u{37D}'
            | '\u{37F}'..='\u{1FFF}'
            | '\u{200C}'..='\u{200D}'
            | '\u{2070}'..='\u{218F}'
            | '\u{2C00}'..='\u{2FEF}'
            | '\u{3001}'..='\u{D7FF}'
            | '\u{F900}'..='\u{FDCF}'
            | '\u{FDF0}'..='\u{FFFD}'
            | '\u{10000}'..='\u{EFFFF}'
    )
}

/// Whether a name may hold this character: `NameChar` (XML 1.0, Fifth Edition, 2.3).
pub fn is_name_char(c: char) -> bool
    ensures { result ≡ class.is_name_char c }
{
    is_name_start(c)
        || matches!(
            c,
            '-' | '.' | '0'..='9' | '\u{B7}' | '\u{300}'..='\u{36F}' | '\u{203F}'..='\u{2040}'
        )
}
