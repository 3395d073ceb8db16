//! The words of the command line.

ghost use Rattle.std.specs.Prelude.{◌≡◌, IfSome};
ghost use Rattle.std.specs.Option.{option_map};
ghost use Rattle.cache_tool.specs.Words.{alone as alone_of, asked_in, fill_of as fill_asked, with_word as with_word_of, with_words as with_words_of};
ghost use Rattle.cache_tool.specs.Asked.{asked, AskedIsGiven};

use cache_base::{Moment, number};
use cache_script::Command;

/// What the words ask for, at a moment.
#[derive(Clone, Copy)]
pub(crate) enum Asked<'a> {
    /// `NOW run`
    Run { now: Moment },
    /// `NOW put KEY`
    Put { now: Moment, key: &'a [u8] },
    /// `NOW get KEY`, `NOW getalt KEY`, `NOW main KEY`, `NOW doom KEY`, `NOW clear ORIGIN`,
    /// `NOW evict KB`, `NOW flush`, `NOW list`, `NOW verify`, `NOW rebuild`, `NOW dump`
    One { now: Moment, command: Command<'a> },
    /// `NOW fill N FIRST`
    Fill { now: Moment, count: u32, first: u32 },
    /// `NOW load`
    Load { now: Moment },
}

// A `fill` makes at most so many entries.
const FILL_LIMIT: u32 = 100_000;

// A verb that stands alone.
fn alone(now: Moment, verb: &str) -> Option<Asked<'_>>
    ensures asked { option_map asked result ≡ alone_of now verb.now }
    ensures given { IfSome result (λ a. AskedIsGiven (asked a)) }
{
    match verb {
        "run" => Some(Asked::Run { now }),
        "flush" => Some(Asked::One {
            now,
            command: Command::Flush,
        }),
        "list" => Some(Asked::One {
            now,
            command: Command::List,
        }),
        "verify" => Some(Asked::One {
            now,
            command: Command::Verify,
        }),
        "rebuild" => Some(Asked::One {
            now,
            command: Command::Rebuild,
        }),
        "dump" => Some(Asked::One {
            now,
            command: Command::Dump,
        }),
        "load" => Some(Asked::Load { now }),
        _ => None,
    }
}

// A verb with a key, an origin or a number.
fn with_word<'a>(now: Moment, verb: &str, word: &'a [u8]) -> Option<Asked<'a>>
    ensures asked { option_map asked result ≡ with_word_of now verb.now word.now }
    ensures given { IfSome result (λ a. AskedIsGiven (asked a)) }
{
    match verb {
        "put" => Some(Asked::Put { now, key: word }),
        "get" => Some(Asked::One {
            now,
            command: Command::Get { key: word },
        }),
        "getalt" => Some(Asked::One {
            now,
            command: Command::GetAlt { key: word },
        }),
        "main" => Some(Asked::One {
            now,
            command: Command::MainBody { key: word },
        }),
        "doom" => Some(Asked::One {
            now,
            command: Command::Doom { key: word },
        }),
        "clear" => Some(Asked::One {
            now,
            command: Command::Clear { origin: word },
        }),
        "evict" => Some(Asked::One {
            now,
            command: Command::Evict { kb: number(word)? },
        }),
        _ => None,
    }
}

// A `fill` of so many entries, if there may be so many.
fn fill_of<'a>(now: Moment, count: u32, first: u32) -> Option<Asked<'a>>
    ensures asked { option_map asked result ≡ fill_asked now count first }
    ensures given { IfSome result (λ a. AskedIsGiven (asked a)) }
{
    if 0 < count && count <= FILL_LIMIT {
        Some(Asked::Fill { now, count, first })
    } else {
        None
    }
}

// A verb with two numbers.
fn with_words<'a>(now: Moment, verb: &str, count: &[u8], first: &[u8]) -> Option<Asked<'a>>
    ensures asked { option_map asked result ≡ with_words_of now verb.now count.now first.now }
    ensures given { IfSome result (λ a. AskedIsGiven (asked a)) }
{
    match verb {
        "fill" => fill_of(now, number(count)?, number(first)?),
        _ => None,
    }
}

pub(crate) fn read_words(words: &[String]) -> Option<Asked<'_>>
    ensures asked { option_map asked result ≡ asked_in words.now }
    ensures given { IfSome result (λ a. AskedIsGiven (asked a)) }
{
    match words {
        [now, verb] => alone(number(now.as_bytes())?, verb),
        [now, verb, word] => with_word(number(now.as_bytes())?, verb.as_str(), word.as_bytes()),
        [now, verb, count, first] => with_words(
            number(now.as_bytes())?,
            verb.as_str(),
            count.as_bytes(),
            first.as_bytes(),
        ),
        _ => None,
    }
}
