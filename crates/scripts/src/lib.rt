// Scripts of calls: their text, and playing each on a new station.
#![tactic(auto)]

mod line;
mod played;
mod script;
mod shown;
mod words;

pub use played::{Played, play};
