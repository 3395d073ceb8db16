use entry_key::{
    KeyFault, hash_of_origin, may_write, origin_hash, parse, reads_exactly, reads_or_fails,
};

// A key, whether it is anonymous, its origin, what its other values say, and its address.
type Row<'a> = (&'a [u8], bool, &'a [u8], &'a [u8], &'a [u8]);

fn is_parsed(row: &Row<'_>) -> bool {
    let (key, anonymous, origin, extra, address) = *row;
    match parse(key) {
        Ok(tags) => {
            tags.anonymous == anonymous
                && tags.origin == origin
                && tags.extra == extra
                && tags.address == address
        }
        Err(_) => false,
    }
}

#[test]
fn keys_are_parsed(rt: HostRuntime) {
    let rows: [Row<'_>; 5] = [
        (b":", false, b"", b"", b""),
        (b"a,:https://x/", true, b"", b"", b"https://x/"),
        (
            b"O^partitionKey=%28https%2Cexample.com%29,:https://x/",
            false,
            b"^partitionKey=%28https%2Cexample.com%29",
            b"",
            b"https://x/",
        ),
        (b"~x,,y,:https://x/", false, b"", b"x,,y", b"https://x/"),
        (b"Ox,Zread past,,,a,b,p,~,:,a:", true, b"x", b"", b",a:"),
    ];
    for index in 0..rows.len() {
        assert!(rt; is_parsed(&rows[index]), "row {index}");
    }
}

fn has_fault(key: &[u8], fault: KeyFault) -> bool {
    match parse(key) {
        Ok(_) => false,
        Err(found) => found == fault,
    }
}

#[test]
fn the_first_fault_is_found(rt: HostRuntime) {
    let rows = [
        (b"".as_slice(), KeyFault::NoAddress),
        (b"a,", KeyFault::NoAddress),
        (b"O^x,", KeyFault::NoAddress),
        (b",:y", KeyFault::Order(0)),
        (b"a,O^x,:y", KeyFault::Order(2)),
        (b"a,a,:y", KeyFault::Order(2)),
        (b"a,,:y", KeyFault::Order(2)),
        (b"a:x", KeyFault::NoComma(1)),
        (b"Ox,p", KeyFault::NoComma(4)),
        (b"O^x", KeyFault::NoComma(3)),
        (b"O^x,,:y", KeyFault::NoComma(7)),
    ];
    for index in 0..rows.len() {
        let (key, fault) = rows[index];
        assert!(rt; has_fault(key, fault), "row {index}");
    }
}

fn has_origin(key: &[u8], hash: u64) -> bool {
    match parse(key) {
        Ok(tags) => origin_hash(&tags) == hash,
        Err(_) => false,
    }
}

#[test]
fn origins_are_hashed_with_single_commas(rt: HostRuntime) {
    // The first eight bytes of hashlib's SHA-1 of no bytes, of `^a,b` and of `,,`.
    let rows = [
        (b":x".as_slice(), 0xDA39_A3EE_5E6B_4B0D),
        (b"O,:x", 0xDA39_A3EE_5E6B_4B0D),
        (b"O^a,,b,:x", 0x6939_6327_0C2B_8367),
        (b"O,,,,,:x", 0x7DC5_4589_A828_EFB2),
    ];
    for index in 0..rows.len() {
        let (key, hash) = rows[index];
        assert!(rt; has_origin(key, hash), "row {index}");
    }
}

// Whether an origin as it stands has the hash of the key that spells it.
fn agree(origin: &[u8], key: &[u8], hash: u64) -> bool {
    hash_of_origin(origin) == hash && has_origin(key, hash)
}

#[test]
fn an_origin_as_it_stands_has_the_hash_of_its_keys(rt: HostRuntime) {
    // By hashlib, as above; that of `^a` too.
    let rows = [
        (b"".as_slice(), b":x".as_slice(), 0xDA39_A3EE_5E6B_4B0D),
        (b"^a", b"O^a,:x", 0xF87F_B192_D266_1A8C),
        (b"^a,b", b"O^a,,b,:x", 0x6939_6327_0C2B_8367),
        (b",,", b"O,,,,,:x", 0x7DC5_4589_A828_EFB2),
    ];
    for index in 0..rows.len() {
        let (origin, key, hash) = rows[index];
        assert!(rt; agree(origin, key, hash), "row {index}");
    }
}

#[test]
fn some_keys_may_be_written(rt: HostRuntime) {
    let mut long = [b'x'; 16_385];
    long[0] = b':';
    let rows = [
        (b":x".as_slice(), true),
        (&long[..16_384], true),
        (&long, false),
        (b"", false),
        (b":x\0", false),
        (b":x\ny", false),
        (b"a:x", false),
    ];
    for index in 0..rows.len() {
        let (key, may) = rows[index];
        assert!(rt; may_write(key) == may, "row {index}");
    }
}

#[test]
fn laws_are_called() {
    reads_exactly();
    reads_or_fails();
}
