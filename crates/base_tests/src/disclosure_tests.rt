// Tests of disclosures that are read: of the salt, and of why a text is none.
use disclosure::DisclosureError::{NotBase64, NotDisclosure, NotJson, NotWhole};
use disclosure::{DisclosureError, read_disclosure};
use std::alloc::Global;

// Whether this text is the salt, or this is why there is none.
fn is_read_as(alloc: Global, text: &str, wanted: Result<&str, DisclosureError>) -> bool {
    match read_disclosure(alloc, text) {
        Ok(read) => match read.salt.as_text() {
            Some(salt) => wanted == Ok(salt.as_str()),
            None => false,
        },
        Err(error) => wanted == Err(error),
    }
}

#[test]
fn a_disclosure_has_a_salt_and_what_is_none_has_a_cause(rt: HostRuntime) {
    for (text, wanted) in [
        // RFC 9901 section 4.2.3
        (
            "WyJfMjZiYzRMVC1hYzZxMktJNmNCVzVlcyIsICJmYW1pbHlfbmFtZSIsICJNw7ZiaXVzIl0",
            Ok("_26bc4LT-ac6q2KI6cBW5es"),
        ),
        ("WyJzIl", Err(NotBase64)),
        ("WyJzIl0=", Err(NotBase64)),
        ("", Err(NotJson)),
        ("eA", Err(NotJson)),
        // no UTF-8
        ("WyL_IiwxXQ", Err(NotJson)),
        // ["s",1.5]
        ("WyJzIiwxLjVd", Err(NotWhole)),
        // {}, [], ["s"], ["s",1,2] and ["s","n",1,2]
        ("e30", Err(NotDisclosure)),
        ("W10", Err(NotDisclosure)),
        ("WyJzIl0", Err(NotDisclosure)),
        ("WyJzIiwxLDJd", Err(NotDisclosure)),
        ("WyJzIiwibiIsMSwyXQ", Err(NotDisclosure)),
    ] {
        assert!(rt; is_read_as(rt.alloc(), text, wanted), "{text}");
    }
}
