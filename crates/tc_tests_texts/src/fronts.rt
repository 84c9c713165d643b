use tc_scan::{after_mark, after_some_white, plain_len, plain_len_within, qname, up_to};

/// Texts, and what stands behind a mark in front of each, if it begins with that.
static MARKED: [(&str, &str, Option<&str>); 2] = [
    ("<!--a-->", "<!--", Some("a-->")),
    ("<!-a-->", "<!--", None),
];

/// The same of white space.
static WHITE: [(&str, Option<&str>); 2] = [(" \t\r\nb", Some("b")), ("b", None)];

#[test]
fn the_front_of_a_text_is_found(rt: HostRuntime) {
    for (text, mark, after) in &MARKED {
        assert!(rt; after_mark(text, mark) == *after, "{text}");
    }
    for (text, after) in &WHITE {
        assert!(rt; after_some_white(text) == *after, "{text}");
    }
}

#[test]
fn plain_text_and_what_stands_before_a_mark_are_found(rt: HostRuntime) {
    assert!(rt; plain_len("ab&lt;") == 2);
    assert!(rt; plain_len_within("a\"b'", b'\'') == 3);
    assert!(rt; up_to("a-b-->c", "-->") == Some(("a-b", "c")));
    assert!(rt; up_to("a-b--c", "-->").is_none());
}

/// Texts, and what is read in front of each, if it begins with a name: the prefix, the local part, and what follows.
static NAMES: [(&str, Option<(&str, &str, &str)>); 9] = [
    ("a=", Some(("", "a", "="))),
    ("p:a-1.b >", Some(("p", "a-1.b", " >"))),
    ("\u{3b1}:\u{3b2}/", Some(("\u{3b1}", "\u{3b2}", "/"))),
    (
        "a\u{3b2}c:d\u{b7}e-1\u{d7}",
        Some(("a\u{3b2}c", "d\u{b7}e-1", "\u{d7}")),
    ),
    ("a:b:c", Some(("a", "b", ":c"))),
    ("1a", None),
    (":a", None),
    ("a:", None),
    ("", None),
];

/// What is read in front of a text.
fn read_name(text: &str) -> Option<(&str, &str, &str)> {
    let (name, after) = qname(text)?;
    Some((name.prefix, name.local, after))
}

#[test]
fn names_are_read_as_long_as_they_go(rt: HostRuntime) {
    for (text, expected) in &NAMES {
        assert!(rt; read_name(text) == *expected, "{text}");
    }
}
