// What a line of a script says.
ghost use Rattle.std.specs.Prelude.{◌≡◌, IfOk};
ghost use Rattle.scripts.specs.Text.{words_of, texts_of};
ghost use Rattle.scripts.specs.Lines.{verdict_named, frame_named, call_named, memory_named, station_said, said_of, line_said};

use crate::words::{number, octet, short};
use frame::progress::Verdict;
use rules::data::Call;
use std::alloc::{AllocError, Global};

// The memory that a script asks for: octets in a row, words, or a row followed by words.
#[derive(Clone, Copy)]
pub enum Kind {
    Octets { octets: u32 },
    Words { words: u32 },
    Joined { octets: u32, words: u32 },
}

// `Octets` is a call for each of the octets that the line goes on with.
#[derive(Clone, Copy)]
pub enum Line {
    Memory(Kind),
    Station(u16),
    Call(Call),
    Octets,
}

// The words of a text: what stands between white space.
pub fn words_of(heap: Global, text: &str) -> Result<Vec<&str>, AllocError>
    ensures { IfOk result (λ words. texts_of words.items ≡ words_of text.now) }
{
    text.split_whitespace().collect(heap)
}

// What the words of a line say, if it can be read. A frame of which no number is told is of the station's own.
pub fn line_of(words: &[&str], own: u16) -> Option<Line>
    ensures { result ≡ line_said (texts_of words.now) own }
{
    match words {
        [] => None,
        [name, words @ ..] => said_of(name, words, own),
    }
}

// `own` goes beside the words: they get fewer at each step, so a struct of both would be made anew at each.
fn said_of(name: &str, words: &[&str], own: u16) -> Option<Line>
    ensures { result ≡ said_of name.now (texts_of words.now) own }
{
    match name {
        "octets" => Some(Line::Octets),
        "memory" => Some(Line::Memory(memory_of(words)?)),
        "station" => Some(Line::Station(station_of(words)?)),
        _ => Some(Line::Call(call_of(name, words, own)?)),
    }
}

fn memory_of(words: &[&str]) -> Option<Kind>
    ensures { result ≡ memory_named (texts_of words.now) }
{
    let [kind, sizes @ ..] = words else {
        return None;
    };
    match (*kind, sizes) {
        ("octets", [octets]) => Some(Kind::Octets {
            octets: number(octets)?,
        }),
        ("words", [words]) => Some(Kind::Words {
            words: number(words)?,
        }),
        ("joined", [octets, words]) => Some(Kind::Joined {
            octets: number(octets)?,
            words: number(words)?,
        }),
        _ => None,
    }
}

fn station_of(words: &[&str]) -> Option<u16>
    ensures { result ≡ station_said (texts_of words.now) }
{
    match words {
        [number] => short(number),
        _ => None,
    }
}

fn call_of(name: &str, words: &[&str], own: u16) -> Option<Call>
    ensures { result ≡ call_named name.now (texts_of words.now) own }
{
    match (name, words) {
        ("begin", []) => Some(Call::Begin),
        ("octet", [word, of @ ..]) => Some(Call::Octet {
            frame: frame_of(of, own)?,
            octet: octet(word)?,
        }),
        ("end", [word, of @ ..]) => Some(Call::End {
            frame: frame_of(of, own)?,
            verdict: verdict_of(word)?,
        }),
        ("read", [address]) => Some(Call::Read {
            address: u32::from(short(address)?),
        }),
        ("write", [address, word]) => Some(Call::Write {
            address: u32::from(short(address)?),
            octet: octet(word)?,
        }),
        _ => None,
    }
}

// The number of the frame handed in: `of` and a number, or nothing.
fn frame_of(words: &[&str], own: u16) -> Option<u16>
    ensures { result ≡ frame_named (texts_of words.now) own }
{
    // A guard: a literal inside a slice pattern leaves no fact where it does not match.
    match words {
        [] => Some(own),
        [word, number] if *word == "of" => short(number),
        _ => None,
    }
}

// A function, since `Verdict` is another crate's.
fn verdict_of(word: &str) -> Option<Verdict>
    ensures { result ≡ verdict_named word.now }
{
    match word {
        "good" => Some(Verdict::Good),
        "bad" => Some(Verdict::Bad),
        _ => None,
    }
}
