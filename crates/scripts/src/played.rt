// Playing the text of a script: the calls of its lines on a new station, what each answers, and what the memory holds at the end.
ghost use Rattle.std.specs.Prelude.{◌≡◌, ◌+◌, ◌*◌, min, IfOk};
ghost use Rattle.scripts.specs.Text.{texts_of};
ghost use Rattle.scripts.specs.Played.{lines_of, script_of, zeros, Performed, PerformedOn, Plays};

use crate::line::Kind;
use crate::script::{Item, Script};
use crate::shown::{Answered, Asked};
use memory::joined::Joined;
use memory::row::Row;
use memory::words::Words;
use memory::{LIMIT, Memory};
use station::{Entry, replay};
use std::alloc::{AllocError, Global};
use std::fmt;

// A script that was played: its calls with their answers, what has a line of output, and the octets of its memory afterwards. Its text has a line
// for each call with its answer, one for each line of the script that cannot be read, and the memory.
#[derive(Drop)]
pub struct Played {
    entries: Vec<Entry>,
    items: Vec<Item>,
    octets: Vec<u8>,
}

// Plays the script of a text.
pub fn play(heap: Global, text: &[u8]) -> Result<Played, AllocError>
    ensures { IfOk result (λ played. Plays text.now played) }
{
    perform(script_of(heap, text)?, heap)
}

// What stands between line feeds.
fn lines_of(heap: Global, text: &[u8]) -> Result<Vec<&[u8]>, AllocError>
    ensures { IfOk result (λ lines. texts_of lines.items ≡ lines_of text.now) }
{
    text.split(|octet| *octet == b'\n').collect(heap)
}

fn script_of(heap: Global, text: &[u8]) -> Result<Script, AllocError>
    ensures { IfOk result (λ script. script ≡ script_of text.now) }
{
    let mut script = Script::new(heap);
    for (i, line) in lines_of(heap, text)?.iter().enumerate() {
        script.take(heap, line, i as u64 + 1)?;
    }
    Ok(script)
}

// As many cells as a script asks for, but no more than show that a memory is cut.
fn few(asked: u32) -> usize
    ensures { result ≡ min asked 61456 }
{
    (asked as usize).min(LIMIT + 16)
}

// Makes the memory that the script asks for, all octets 0, and makes the calls on it.
fn perform(script: Script, heap: Global) -> Result<Played, AllocError>
    ensures { IfOk result (λ played. Performed script played) }
{
    match script.kind() {
        Kind::Octets { octets } => on_octets(script, heap, octets),
        Kind::Words { words } => on_words(script, heap, words),
        Kind::Joined { octets, words } => on_both(script, heap, octets, words),
    }
}

// Each of the three makes a memory of another type, and hands it to the one function under them.
fn on_octets(script: Script, heap: Global, asked: u32) -> Result<Played, AllocError>
    ensures { IfOk result (λ played. PerformedOn (zeros asked) script played) }
{
    let mut row = vec![in heap; 0u8; few(asked)]?;
    perform_on(script, heap, Row::new(row.as_mut_slice()))
}

fn on_words(script: Script, heap: Global, asked: u32) -> Result<Played, AllocError>
    ensures { IfOk result (λ played. PerformedOn (zeros (2 * asked)) script played) }
{
    let mut cells = vec![in heap; 0u16; few(asked)]?;
    perform_on(script, heap, Words::new(cells.as_mut_slice()))
}

fn on_both(script: Script, heap: Global, octets: u32, words: u32) -> Result<Played, AllocError>
    ensures { IfOk result (λ played. PerformedOn (zeros (octets + 2 * words)) script played) }
{
    let mut row = vec![in heap; 0u8; few(octets)]?;
    let mut cells = vec![in heap; 0u16; few(words)]?;
    let row = Row::new(row.as_mut_slice());
    let cells = Words::new(cells.as_mut_slice());
    perform_on(script, heap, Joined::new(row, cells))
}

// Makes the calls on a new station over the memory.
fn perform_on<M: Memory + Drop>(
    script: Script,
    heap: Global,
    memory: M,
) -> Result<Played, AllocError>
    ensures { IfOk result (λ played. PerformedOn (M.octets memory) script played) }
{
    let number = script.number();
    let Script {
        mut entries,
        items,
        ..
    } = script;
    let mut memory = replay(memory, number, entries.as_mut_slice());
    let octets = octets_of(heap, &mut memory)?;
    Ok(Played {
        entries,
        items,
        octets,
    })
}

fn octets_of<M: Memory>(heap: Global, memory: &mut M) -> Result<Vec<u8>, AllocError>
    ensures { IfOk result (λ octets. octets.items ≡ M.octets memory.old) }
{
    let mut octets = Vec::new(heap);
    // Places of a memory: it has no slice to go over.
    for place in 0..memory.size() {
        if let Ok(octet) = memory.read(place as u32) {
            octets.push(octet)?;
        }
    }
    Ok(octets)
}

// Octets that a row of text shows.
const WIDTH: usize = 16;

// A line for each call and for each line of the script that cannot be read.
fn show_answers<W: fmt::Write>(played: &Played, f: &mut fmt::Formatter<W>) -> fmt::Result {
    let mut entries = played.entries().iter();
    for item in played.items() {
        match *item {
            Item::Unreadable { line } => writeln!(f, "line {line}: cannot be read")?,
            Item::Call => {
                if let Some(entry) = entries.next() {
                    writeln!(f, "{}: {}", Asked(entry.call), Answered(entry.answer))?;
                }
            }
        }
    }
    Ok(())
}

// The size of the memory, and its rows that hold anything but 0.
fn show_memory<W: fmt::Write>(octets: &[u8], f: &mut fmt::Formatter<W>) -> fmt::Result {
    writeln!(f, "memory: {} octets", octets.len())?;
    for (i, row) in octets.chunks(WIDTH).enumerate() {
        if row.iter().any(|octet| *octet != 0) {
            show_row(i.saturating_mul(WIDTH), row, f)?;
        }
    }
    Ok(())
}

fn show_row<W: fmt::Write>(first: usize, row: &[u8], f: &mut fmt::Formatter<W>) -> fmt::Result {
    write!(f, "{first:04X}:")?;
    for octet in row {
        write!(f, " {octet:02X}")?;
    }
    writeln!(f)
}

impl Played {
    fn entries(&self) -> &[Entry]
        ensures { result.now ≡ self.now.entries.items }
    {
        self.entries.as_slice()
    }

    fn items(&self) -> &[Item]
        ensures { result.now ≡ self.now.items.items }
    {
        self.items.as_slice()
    }
}

impl fmt::Display for Played {
    fn fmt<W: fmt::Write>(&self, f: &mut fmt::Formatter<W>) -> fmt::Result {
        show_answers(self, f)?;
        show_memory(self.octets.as_slice(), f)
    }
}
