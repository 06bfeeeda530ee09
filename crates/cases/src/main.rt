// Plays the scripts that its arguments name, each on a new station and under its name. The gate compares what it prints with what another
// implementation of the rules answered.
#![tactic(auto)]

use std::io::{BufWriter, Write};
use std::{env, fs};

fn play_named(rt: &HostRuntime, out: &mut impl Write, name: &str) -> anyhow::Result<()> {
    let text = fs::read(rt, name)?;
    writeln!(out, "script {name}")?;
    write!(out, "{}", scripts::play(rt.alloc(), text.as_slice())?)?;
    Ok(())
}

fn main(rt: HostRuntime) -> anyhow::Result<()> {
    let mut out = BufWriter::new(rt.alloc(), rt.stdout())?;
    for name in env::args(&rt)?.skip(1) {
        play_named(&rt, &mut out, name.as_str())?;
    }
    out.flush()?;
    Ok(())
}
