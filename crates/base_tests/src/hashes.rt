use jenkins_hash::{Hasher, hash, hash16};

#[test]
fn hashes_of_short_texts(rt: HostRuntime) {
    for (text, whole, low) in [
        ("", 0xbd49_d10d, 0xd10d),
        ("hello", 0xb706_399e, 0x399e),
        ("jello", 0xce56_6daa, 0x6daa),
    ] {
        let bytes = text.as_bytes();
        assert!(rt; (hash(bytes), hash16(bytes)) == (whole, low), "of {text}");
    }
}

#[test]
fn pieces_hash_as_the_whole(rt: HostRuntime) {
    let mut hasher = Hasher::new();
    hasher.update(b"he");
    hasher.update(b"");
    hasher.update(b"llo");
    assert!(rt; hasher.finish() == 0xb706_399e);
}

#[test]
fn a_cut_changes_nothing(rt: HostRuntime) {
    let text =
        b"The hash of a hundred bytes is the same, at whichever of their places someone cuts them in two parts";
    let whole = hash(text);
    for at in 0..101 {
        let (front, back) = text.split_at(at);
        let mut hasher = Hasher::new();
        hasher.update(front);
        hasher.update(back);
        assert!(rt; hasher.finish() == whole, "cut at {at}");
    }
}
