//! The lines that are acting, and what follows them.

use crate::source::Source;
use crate::turns::Turns;
use form_calc::{Row, Text};
use std::rc::Rc;

/// A line of a text, where a refusal may stand.
#[derive(Drop)]
pub struct Site {
    pub source: Rc<Source>,
    pub line: u32,
}

/// A loop of which a turn acts.
#[derive(Drop)]
pub struct Turn {
    pub site: Site,
    pub name: Text,
    /// How many values its variable had before the turn.
    pub height: usize,
    pub turns: Turns,
    /// The place of the first line of its body, in the text of its site.
    pub body: usize,
}

/// A call of which the procedure's text acts.
#[derive(Drop)]
pub struct Fetched {
    pub site: Site,
    pub name: Text,
    pub arguments: Row<Text>,
}

/// What follows lines that act.
#[derive(Drop)]
pub enum After {
    /// Nothing: they are a branch.
    Branch,
    /// Nothing: they are a text that is included.
    Included,
    Turn(Turn),
    Fetched(Fetched),
    /// The end of a call.
    Called,
}

/// Lines that are to act: those of a text from a place on.
#[derive(Drop)]
pub struct Entry {
    pub source: Rc<Source>,
    pub place: usize,
    pub after: After,
}

/// What is to be done once a line has acted.
#[derive(Drop)]
pub enum Action {
    /// What follows it acts.
    Goes,
    /// Nothing: it ends the program.
    Ends,
    /// These lines act first.
    Enters(Entry),
}

/// Lines that act, with so many calls open.
#[derive(Drop)]
pub struct Frame {
    pub entry: Entry,
    pub depth: usize,
}
