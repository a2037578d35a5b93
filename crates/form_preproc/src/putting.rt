//! Putting the values of variables into a line.

ghost use Rattle.std.specs.Prelude.{◌≡◌, ◌≤◌, ◌∷◌, ◌++◌, length, false, ⊤, Err, MatchOption, IfOk, IfErr, OnOk};
ghost use Rattle.form_preproc.specs.Answers.{Gives, Steps};
ghost use Rattle.form_preproc.specs.Kept.{kept_in};
ghost use Rattle.form_preproc.specs.Passing.{AreSame, IsLike, IsPassed, IsRead, IsReadOn};
ghost use Rattle.form_preproc.specs.Putting as putting;
ghost use Rattle.form_preproc.specs.Variables.{newest};
ghost use Rattle.form_preproc.specs.declared.putting.Putting.{Putting as State};

use crate::error::LineError;
use crate::variables::{Variables, name_of};
use form_base::Cause;
use form_calc::{Stack, Text};
use std::alloc::{AllocError, Global};
use std::mem;

/// The most bytes of a line.
pub const MOST_BYTES: usize = 1_048_576;

/// A line that is read up to a place.
#[derive(Drop)]
pub struct Putting {
    /// What stands outside the names that are open, the innermost first.
    outer: Stack<Text>,
    text: Text,
}

impl Putting {
    fn new(alloc: Global, room: usize) -> Result<Putting, AllocError>
        ensures { IfOk result (λ p. p ≡ putting.begun) }
    {
        Ok(Putting {
            outer: Stack::new(alloc),
            text: Text::with_room(alloc, room)?,
        })
    }

    /// A quote from which on a name is read.
    fn open(&mut self, alloc: Global) -> Result<(), AllocError>
        ensures { OnOk result (self.new ≡ putting.opened self.old) }
    {
        let before = mem::replace(&mut self.text, Text::new(alloc));
        self.outer.push(before)
    }

    /// A quote that ends a name.
    fn close(&mut self, alloc: Global, variables: &Variables) -> Result<(), LineError>
        ensures { Steps self.new result (putting.closed (kept_in variables.now).values self.old.text self.old.outer) }
    {
        let before = match self.outer.pop() {
            Some(before) => before,
            None => return Ok(self.text.push(b'\'')?),
        };
        let name = mem::replace(&mut self.text, before);
        match variables.newest(name.as_slice()) {
            Some(value) => Ok(self.text.append(value)?),
            None => Err(LineError::Refused(Cause::UnknownVar(name_of(alloc, name.as_slice())?))),
        }
    }

    /// Drops the text outside all names where it is too long for a line: whether it was.
    fn drop_long(&mut self, alloc: Global) -> bool
        ensures { AreSame result self.old self.new }
    {
        if self.outer.len() > 0 || self.text.len() <= MOST_BYTES {
            return false;
        }
        self.text = Text::new(alloc);
        true
    }

    /// A quote that ends a name in a line that is too long.
    fn pass_quote(&mut self, alloc: Global, variables: &Variables) -> Result<(), LineError>
        ensures { (p : State) → IsLike p self.old → IsPassed self.new result (putting.closed (kept_in variables.now).values p.text p.outer) }
    {
        let before = match self.outer.pop() {
            Some(before) => before,
            None => return Ok(()),
        };
        let name = mem::replace(&mut self.text, before);
        match variables.newest(name.as_slice()) {
            Some(value) if self.outer.len() > 0 => Ok(self.text.append(value)?),
            Some(_) => Ok(()),
            None => Err(LineError::Refused(Cause::UnknownVar(name_of(alloc, name.as_slice())?))),
        }
    }

    /// Reads a text without quotes in a line that is too long, of which only the names are kept.
    fn pass_text(&mut self, text: &[u8]) -> Result<(), AllocError>
        ensures { (p : State) → IsLike p self.old → OnOk result (IsLike (putting.with_text p text.now) self.new) }
    {
        if self.outer.len() == 0 {
            return Ok(());
        }
        self.text.append(text)?;
        Ok(())
    }

    /// Reads a text without quotes: whether the line is too long then, of which only the names are kept.
    fn read_text(&mut self, alloc: Global, is_long: bool, text: &[u8]) -> Result<bool, AllocError>
        ensures { (p : State) → AreSame is_long p self.old → IfOk result (λ now_long. AreSame now_long (putting.with_text p text.now) self.new) }
    {
        if is_long {
            self.pass_text(text)?;
            return Ok(true);
        }
        self.text.append(text)?;
        Ok(self.drop_long(alloc))
    }

    /// Reads a quote that opens a name, or another one: whether the line is too long then.
    fn read_quote(
        &mut self,
        alloc: Global,
        variables: &Variables,
        is_long: bool,
        opens: bool,
    ) -> Result<bool, LineError>
        ensures { (p : State) → AreSame is_long p self.old → IsRead self.new result (putting.quoted (kept_in variables.now).values p opens) }
    {
        if opens {
            self.open(alloc)?;
            return Ok(is_long);
        }
        if is_long {
            self.pass_quote(alloc, variables)?;
            return Ok(true);
        }
        self.close(alloc, variables)?;
        Ok(self.drop_long(alloc))
    }

    /// Puts the value of a name behind the text: whether the line is too long then.
    fn put_value(
        &mut self,
        alloc: Global,
        variables: &Variables,
        is_long: bool,
        name: &[u8],
    ) -> Result<bool, LineError>
        ensures { (p : State) → AreSame is_long p self.old → IsRead self.new result (putting.valued name.now p.text p.outer (newest (kept_in variables.now).values name.now)) }
    {
        match variables.newest(name) {
            Some(value) => Ok(self.read_text(alloc, is_long, value)?),
            None => Err(LineError::Refused(Cause::UnknownVar(name_of(alloc, name)?))),
        }
    }

    /// Reads a text without quotes and the quote behind it, with the name that it opens where no other is in that: whether the
    /// line is too long then, and what follows.
    fn read<'a>(
        &mut self,
        alloc: Global,
        variables: &Variables,
        is_long: bool,
        text: &[u8],
        opens: bool,
        behind: &'a [u8],
    ) -> Result<(bool, &'a [u8]), LineError>
        requires { putting.AreNoQuotes text.now }
        ensures read { (p : State) → AreSame is_long p self.old
            → IfOk result (λ x. IsReadOn (kept_in variables.now).values x.0 self.new x.1.now (putting.read (kept_in variables.now).values p (text.now ++ putting.quote opens ∷ behind.now))) }
        ensures shorter { IfOk result (λ x. length x.1.now ≤ length behind.now) }
        ensures stops { (p : State) → AreSame is_long p self.old
            → IfErr result (λ error. Gives {X = State} (Err error) (putting.read (kept_in variables.now).values p (text.now ++ putting.quote opens ∷ behind.now))) }
    {
        let is_long = self.read_text(alloc, is_long, text)?;
        if opens {
            if let Some((name, rest)) = name_at(behind) {
                let is_long = self.put_value(alloc, variables, is_long, name)?;
                return Ok((is_long, rest));
            }
        }
        let is_long = self.read_quote(alloc, variables, is_long, opens)?;
        Ok((is_long, behind))
    }

    /// The line, where no name is open.
    fn end(mut self) -> Result<Text, LineError>
        ensures { Gives result (putting.end_of self) }
    {
        if let Some(_) = self.outer.pop() {
            return Err(LineError::Refused(Cause::Unclosed));
        }
        unless_long(self.text)
    }
}

/// A line, unless it is too long.
fn unless_long(text: Text) -> Result<Text, LineError>
    ensures { Gives result (putting.unless_long text) }
{
    if text.len() > MOST_BYTES {
        return Err(LineError::Refused(Cause::LineLimit));
    }
    Ok(text)
}

/// The line as it is, unless it is too long.
pub fn untouched(alloc: Global, text: &[u8]) -> Result<Text, LineError>
    ensures { Gives result (putting.unless_long text.now) }
{
    unless_long(Text::from_slice(alloc, text)?)
}

/// The line that was read, or that it is too long.
fn ended(line: Putting, is_long: bool) -> Result<Text, LineError>
    ensures { (p : State) → AreSame is_long p line → Gives result (putting.end_of p) }
{
    match line.end() {
        Ok(text) if !is_long => Ok(text),
        Ok(_) => Err(LineError::Refused(Cause::LineLimit)),
        Err(error) => Err(error),
    }
}

/// What stands before the first quote, whether that opens a name, and what stands behind it.
fn at_quote(text: &[u8]) -> Option<(&[u8], bool, &[u8])>
    ensures { MatchOption result (putting.AreNoQuotes text.now) (λ x. putting.IsAtQuote text.now x.0.now x.1 x.2.now) }
{
    match memchr::memchr2(b'`', b'\'', text) {
        Some(place) => Some((&text[..place], text[place] == b'`', &text[place + 1..])),
        None => None,
    }
}

/// The name at the front that the first quote ends, and what stands behind that.
fn name_at(text: &[u8]) -> Option<(&[u8], &[u8])>
    ensures { MatchOption result ⊤ (λ x. putting.IsAtQuote text.now x.0.now false x.1.now) }
{
    match at_quote(text) {
        Some((name, false, behind)) => Some((name, behind)),
        _ => None,
    }
}

/// The line with the values of variables in place of the names in quotes.
pub fn put_in(alloc: Global, variables: &Variables, text: &[u8]) -> Result<Text, LineError>
    ensures { Gives result (putting.put_in (kept_in variables.now).values text.now) }
{
    let mut putting = Putting::new(alloc, text.len())?;
    let mut is_long = false;
    let mut rest = text;
    while let Some((before, opens, behind)) = at_quote(rest) {
        let (now_long, others) = putting.read(alloc, variables, is_long, before, opens, behind)?;
        is_long = now_long;
        rest = others;
    }
    let is_long = putting.read_text(alloc, is_long, rest)?;
    ended(putting, is_long)
}
