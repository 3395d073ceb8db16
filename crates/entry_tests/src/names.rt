use cache_base::Name;
use entry_name::{name_of, read_text, text_of};
use std::alloc::Global;

// Whether the name has this text.
fn is_text_of(alloc: Global, name: &Name, text: &str) -> bool {
    match text_of(alloc, name) {
        Ok(found) => found.as_str() == text,
        Err(_) => false,
    }
}

#[test]
fn the_text_of_a_name_reads_back(rt: HostRuntime) {
    // SHA-1 of `abc`, from FIPS 180-4's examples.
    let text = "A9993E364706816ABA3E25717850C26C9CD0D89D";
    let name = name_of(b"abc");
    assert!(rt; is_text_of(rt.alloc(), &name, text));
    assert!(rt; read_text(text) == Some(name));
}

#[test]
fn other_texts_are_no_names(rt: HostRuntime) {
    for text in [
        "a9993e364706816aba3e25717850c26c9cd0d89d",
        "A9993E364706816ABA3E25717850C26C9CD0D89",
        "A9993E364706816ABA3E25717850C26C9CD0D89D0",
        "A9993E364706816ABA3E25717850C26C9CD0D89G",
    ] {
        assert!(rt; read_text(text).is_none(), "{text}");
    }
}
