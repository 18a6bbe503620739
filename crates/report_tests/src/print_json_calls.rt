//! Names in JSON, also such as no manifest has. Other JSON is in the data of `worked_examples`.

use print_json::*;

/// What stands in a text after these parts, if it begins with them.
fn after<'a>(text: &'a str, parts: &[&str]) -> Option<&'a str> {
    let mut rest = text;
    for part in parts {
        rest = rest.strip_prefix(*part)?;
    }
    Some(rest)
}

/// What stands before the name of a first file that cannot be read.
const HEAD: &str =
    "{\"format\":\"ringcheck\",\"version\":3,\"result\":\"device\",\"file\":1,\"name\":\"";

/// Whether the refusal of a file has these parts, one after another.
fn is_made_of(rt: HostRuntime, name: &str, parts: &[&str]) -> bool {
    let device = InputError::Device { index: 0, name };
    match format!(in rt.alloc(); "{device}") {
        Ok(written) => after(written.as_str(), parts) == Some(""),
        Err(_) => false,
    }
}

#[test]
fn names_are_escaped(rt: HostRuntime) {
    for &(name, escaped) in &[
        ("a\"b", "a\\\"b"),
        ("a\\b", "a\\\\b"),
        ("\u{1}\n\t\u{1f}", "\\u0001\\n\\t\\u001f"),
        ("Lötstopp/€", "Lötstopp/€"),
        ("", ""),
    ] {
        assert!(rt;
            is_made_of(rt, name, &[HEAD, escaped, "\"}\n"]),
            "{escaped}"
        );
    }
}
