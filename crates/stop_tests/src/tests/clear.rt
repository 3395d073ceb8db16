//! Pinned entries, and the clearing of an origin.

mod entries;
mod faults;
mod marks;
mod pins;
mod six;
mod stops;
mod verbs;

use super::images::{before_faults, lists_what_stands, prints};
use super::*;

// Two entries of the origin `^a`, of which the second is pinned, and one without an origin. Their names begin with E4,
// BB and 67.
const THREE: Row<'static> = (
    "1000 run",
    b"create 0 O^a,:https://x/1\nclose 0\ncreate 0 O^a,:https://x/2\npin 0\nclose 0\n\
    create 0 :https://x/3\nclose 0\n",
    Status::Done,
    b"ok\nok\nok\nok\nok\nok\nok\n",
);

const LIST_OF_TWO: &[u8] = b"records 2\n\
    6749AB76E8BBFCAD3CA2D603090C90D5968C9A26 1000 DA39A3EE5E6B4B0D 65535 65535 0 80000001\n\
    BB7A999A49F7463180DC23AA3BD59FA9ED5548C6 1000 F87FB192D2661A8C 65535 65535 0 84000001\n";

// The mark of the origin `^a`.
const MARK: &[u8] = b"\xf8\x7f\xb1\x92\xd2\x66\x1a\x8c\xbf\x5c\x21\xfa";
