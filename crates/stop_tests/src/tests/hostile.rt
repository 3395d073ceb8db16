//! A folder of files that are no entries, each for a reason of its own.

ghost use Rattle.disk_model.specs.MemDisk.{state_in};
ghost use Rattle.disk_theory.specs.Sound.{IsQuiet};

use super::*;
use std::test::Fail;

// Blocks of 37 bytes at the offset 0: of zeros, with a long key, and with an empty key after a wrong and a right hash.
const NO_VERSION: &[u8] = b"\0\0\0\0\
    \0\0\0\0\0\0\0\0\0\0\0\0\0\0\0\0\0\0\0\0\0\0\0\0\0\0\0\0\0\0\0\0\0\
    \0\0\0\0";

const LONG_KEY: &[u8] = b"\0\0\0\0\
    \0\0\0\x03\0\0\0\0\0\0\0\0\0\0\0\0\0\0\0\0\0\0\0\0\xff\xff\xff\xff\0\0\0\0\0\
    \0\0\0\0";

const WRONG_HASH: &[u8] = b"\x88\x00\x03\xe1\
    \0\0\0\x03\0\0\0\0\0\0\0\0\0\0\0\0\0\0\0\0\0\0\0\0\0\0\0\0\0\0\0\0\0\
    \0\0\0\0";

const NO_KEY: &[u8] = b"\x88\x00\x03\xe0\
    \0\0\0\x03\0\0\0\0\0\0\0\0\0\0\0\0\0\0\0\0\0\0\0\0\0\0\0\0\0\0\0\0\0\
    \0\0\0\0";

// An element whose value has no end.
const NO_LAST_ZERO: &[u8] = b"hello\xbc\xf7\xa9\xf8\x39\x9e\
    \0\0\0\x03\0\0\0\x01\0\0\x03\xe8\0\0\x03\xe8\0\0\x03\xe8\xff\xff\xff\xff\0\0\0\x15\0\0\0\0\
    :https://example.com/\0a\0b\0\0\0\x05";

// How many bytes a file has whose block is one byte too long.
const TOO_BIG: usize = 262_149;

// What is wrong with the file under the name of each key, by name.
const FAULTS: &[u8] = b"findings 12\n\
    1F39FF739CFAEF08DE221C052805E7610E68285F unfit elements\n\
    568E14281FA7EAA24ED625933D752B60D7727602 unfit version\n\
    776F057605863FBFFEB875F733D51C2936152FDD unfit key-form\n\
    7887A5C78C80F40826A253557EE7E08E489B9A6A unfit short\n\
    7B85EE3B683A75EA9CD806FA7388A67CCD561771 unfit short\n\
    991368876CE2CC4F26F550C3E66003716718125B unfit too-big\n\
    AC062B24442F5DF77CEDB519B394CF5828184355 unfit key-end\n\
    AF044166B9D2D3DEC08085040865A8389B1C49FD unfit short\n\
    B6C90BB07EECFBA58F8206790BEFBEAFD966C984 unfit short\n\
    D35660A1D5A04CC332AACC4D3FE92FD6FAFEACA6 unfit wrong-name\n\
    D3FFF0F8F43F17E823F1AF09A06779984E3A343A unfit short\n\
    D7601FEC72F3C8E8D07524F9936DBF36C676E304 unfit hash\n";

// Each of the keys, and a last command.
const CREATE_EACH: &[u8] =
    b"create 0 :none\nclose 0\ncreate 0 :stop\nclose 0\ncreate 0 :zeros\nclose 0\ncreate 0 :one\nclose 0\n\
    create 0 :far\nclose 0\ncreate 0 :big\nclose 0\ncreate 0 :old\nclose 0\ncreate 0 :long\nclose 0\n\
    create 0 :flipped\nclose 0\ncreate 0 :empty\nclose 0\ncreate 0 :odd\nclose 0\ncreate 0 :other\nclose 0\nverify\n";

const EACH_IS_SOUND: &[u8] =
    b"ok\nok\nok\nok\nok\nok\nok\nok\nok\nok\nok\nok\nok\nok\nok\nok\nok\nok\nok\nok\nok\nok\nok\nok\nfindings 0\n";

// Keys, and what stands at their places: files that end in no offset of a block, files with a block that is none, and
// one whose key has another name.
const FILES: [(&str, &[u8]); 11] = [
    (":none", b""),
    (":stop", b"\xff\xff\xff\xff"),
    (":zeros", b"\0\0\0\0"),
    (":one", b"\0\0\0\x01"),
    (":far", b"\xff\xff\xff\xfe"),
    (":old", NO_VERSION),
    (":long", LONG_KEY),
    (":flipped", WRONG_HASH),
    (":empty", NO_KEY),
    (":odd", NO_LAST_ZERO),
    (":other", FILE),
];

fn put_files(alloc: Global, disk: &mut MemDisk) -> Result<(), NoMemory>
    requires { IsQuiet (state_in disk.old) }
{
    for index in 0..FILES.len() {
        let (key, file) = FILES[index];
        put_file(alloc, disk, place_of(key), file)?;
    }
    Ok(())
}

// None has a record, each is named with its fault, and an entry of its name takes its place.
const ALL_HARM: [Row<'static>; 6] = [
    ("1000 list", b"", Status::Done, b"records 0\n"),
    ("1000 verify", b"", Status::No, FAULTS),
    ("1000 get :odd", b"", Status::No, ABSENT),
    ("1000 doom :odd", b"", Status::No, ABSENT),
    ("1000 run", CREATE_EACH, Status::Done, EACH_IS_SOUND),
    ("1000 rebuild", b"", Status::Done, b"rebuilt 12\n"),
];

// How many rows come so where all those files stand.
fn harmed(alloc: Global, disk: &mut MemDisk, big: &[u8]) -> Result<usize, Fail>
    requires { IsQuiet (state_in disk.old) }
{
    put_file(alloc, disk, place_of(":big"), big)?;
    put_files(alloc, disk)?;
    rows_so(alloc, disk, &ALL_HARM)
}

#[test]
fn files_that_are_no_entries(rt: HostRuntime) -> Result<(), Fail> {
    let zeros = vec![in rt.alloc(); 0; TOO_BIG]?;
    let mut disk = MemDisk::new(rt.alloc());
    assert!(rt; harmed(rt.alloc(), &mut disk, &zeros)? == 6);
    Ok(())
}
