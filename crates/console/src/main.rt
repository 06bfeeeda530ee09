// Plays the script of calls on standard input, on a new station, and prints what each call answers and what the memory holds at the end.
#![tactic(auto)]

use std::alloc::Global;
use std::io::{BufWriter, Read, Write};

// The octets up to the last line feed.
fn whole_lines(text: &[u8]) -> &[u8] {
    match text.iter().rposition(|octet| *octet == b'\n') {
        Some(at) => &text[..=at],
        None => &[],
    }
}

// Plays the script that the input holds. An error in reading does not lose the lines that were read before: they are played first.
fn play_input(
    out: &mut impl Write,
    heap: Global,
    mut input: impl Read + Drop,
) -> anyhow::Result<()> {
    let mut text = Vec::new(heap);
    let whole = input.read_to_end(&mut text);
    let lines = match whole {
        Ok(_) => text.as_slice(),
        Err(_) => whole_lines(text.as_slice()),
    };
    write!(out, "{}", scripts::play(heap, lines)?)?;
    whole?;
    Ok(())
}

fn main(rt: HostRuntime) -> anyhow::Result<()> {
    let mut out = BufWriter::new(rt.alloc(), rt.stdout())?;
    let played = play_input(&mut out, rt.alloc(), rt.stdin());
    out.flush()?;
    played
}
