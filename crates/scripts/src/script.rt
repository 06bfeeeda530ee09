// A whole script: the set-up, the calls in order, and which lines cannot be read.
ghost use Rattle.std.specs.Prelude.{◌≡◌, [], ◌∷◌, OnErr, is_some};
ghost use Rattle.std.specs.List.{list_all};
ghost use Rattle.std.specs.Option.{unwrap_or};
ghost use Rattle.station.specs.Scripts.{calls_of};
ghost use Rattle.scripts.specs.Numerals.{octet_of};
ghost use Rattle.scripts.specs.Text.{texts_of};
ghost use Rattle.scripts.specs.Scripts.{Held, nothing, own_number, refused, with_calls, with_memory, with_number, are_octets, with_octets, with_words, with_text, with_line, Leaves};

use crate::line::{Kind, Line, line_of, words_of};
use crate::words::octet;
use rules::data::{Answer, Call};
use station::Entry;
use std::alloc::{AllocError, Global};
use std::marker::Model;

// What has a line of output: the next of the calls, or a line that cannot be read. (`replay` takes the calls as one slice of their own.)
// Two names: an `Option` of a number would not say what it is the number of.
#[derive(Clone, Copy)]
pub enum Item {
    Call,
    Unreadable { line: u64 },
}

// A contract sees a script as what it holds before it is played: of its entries, the calls.
#[derive(Drop)]
pub struct Script {
    kind: Option<Kind>,
    number: Option<u16>,
    pub(crate) entries: Vec<Entry>,
    pub(crate) items: Vec<Item>,
}

impl Model for Script {
    ghost Value = { Held };

    ghost view = { λ s. record { kind = s.kind; number = s.number; calls = calls_of s.entries.items; items = s.items.items } };
}

impl Script {
    pub fn new(heap: Global) -> Script
        ensures { result ≡ nothing }
    {
        Script {
            kind: None,
            number: None,
            entries: Vec::new(heap),
            items: Vec::new(heap),
        }
    }

    pub fn kind(&self) -> Kind
        ensures { result ≡ unwrap_or self.now.kind (Kind.Octets 4096) }
    {
        self.kind.unwrap_or(Kind::Octets { octets: 4096 })
    }

    // The station's number.
    pub fn number(&self) -> u16
        ensures { result ≡ own_number self.now }
    {
        self.number.unwrap_or(1)
    }

    // Takes the next line, the octets of it that are no text included. A line that begins with # says nothing.
    pub fn take(&mut self, heap: Global, line: &[u8], count: u64) -> Result<(), AllocError>
        ensures { Leaves result (with_line line.now count) self.old self.new }
    {
        if line.starts_with(b"#") {
            return Ok(());
        }
        self.take_text(heap, line, count)
    }

    fn take_text(&mut self, heap: Global, line: &[u8], count: u64) -> Result<(), AllocError>
        ensures { Leaves result (with_text line.now count) self.old self.new }
    {
        match std::str::from_utf8(line) {
            Ok(text) => self.take_words(&words_of(heap, text)?, count),
            Err(_) => self.refuse(count),
        }
    }

    // A blank line says nothing.
    fn take_words(&mut self, words: &[&str], count: u64) -> Result<(), AllocError>
        ensures { Leaves result (with_words (texts_of words.now) count) self.old self.new }
    {
        if words.is_empty() {
            return Ok(());
        }
        match line_of(words, self.number()) {
            Some(Line::Call(call)) => self.push(call),
            Some(Line::Octets) => self.take_octets(&words[1..], count),
            Some(Line::Memory(kind)) => self.take_memory(kind, count),
            Some(Line::Station(number)) => self.take_number(number, count),
            None => self.refuse(count),
        }
    }

    // The number is taken alike: a helper for both would be handed a field, its value and the test of the calls, and its callers be no shorter.
    // The clause `err` here and below speaks of two moments, before and after, and so stands in no type.
    fn take_memory(&mut self, kind: Kind, count: u64) -> Result<(), AllocError>
        ensures leaves { Leaves result (with_memory kind count) self.old self.new }
        ensures err { OnErr result (self.new ≡ self.old) }
    {
        if self.kind.is_some() || !self.entries.is_empty() {
            return self.refuse(count);
        }
        self.kind = Some(kind);
        Ok(())
    }

    fn take_number(&mut self, number: u16, count: u64) -> Result<(), AllocError>
        ensures leaves { Leaves result (with_number number count) self.old self.new }
        ensures err { OnErr result (self.new ≡ self.old) }
    {
        if self.number.is_some() || !self.entries.is_empty() {
            return self.refuse(count);
        }
        self.number = Some(number);
        Ok(())
    }

    // A call for each octet of the line, or none if one of them cannot be read.
    fn take_octets(&mut self, words: &[&str], count: u64) -> Result<(), AllocError>
        ensures { Leaves result (with_octets (texts_of words.now) count) self.old self.new }
    {
        if !are_octets(words) {
            return self.refuse(count);
        }
        let frame = self.number();
        for word in words {
            if let Some(octet) = octet(word) {
                self.push(Call::Octet { frame, octet })?;
            }
        }
        Ok(())
    }

    fn push(&mut self, call: Call) -> Result<(), AllocError>
        ensures { Leaves result (with_calls (call ∷ [])) self.old self.new }
    {
        // `replay` puts the answer in the place of this one.
        let answer = Answer::Running;
        self.entries.push(Entry { call, answer })?;
        self.items.push(Item::Call)?;
        Ok(())
    }

    fn refuse(&mut self, line: u64) -> Result<(), AllocError>
        ensures leaves { Leaves result (refused line) self.old self.new }
        ensures err { OnErr result (self.new ≡ self.old) }
    {
        self.items.push(Item::Unreadable { line })?;
        Ok(())
    }
}

// Whether there is at least one octet, and nothing else.
fn are_octets(words: &[&str]) -> bool
    ensures { result ≡ are_octets (texts_of words.now) }
{
    !words.is_empty() && all_octets(words)
}

fn all_octets(words: &[&str]) -> bool
    ensures { result ≡ list_all (λ word. is_some (octet_of word)) (texts_of words.now) }
{
    words.iter().all(|word| octet(word).is_some())
}
