ghost use Rattle.std.specs.Prelude.{◌≡◌, ◌<◌, ◌≤◌, length, [], is_some, true, false, map, ◌++◌, IfOk, OnOk};
ghost use Rattle.form_ast.specs.declared.expr.Named.TheVariants.{Declared};
ghost use Rattle.form_ast.specs.declared.expr.Piece.TheVariants as by_piece;
ghost use Rattle.form_ast.specs.Joined.{joined};
ghost use Rattle.form_grammar.specs.declared.effect.Expected.TheVariants.{Exponent, Factor, Operator};
ghost use Rattle.form_grammar.specs.declared.effect.Last.TheVariants as by_last;
ghost use Rattle.std.specs.Vec.Iter.{into_iter_items};
ghost use Rattle.form_grammar.specs.declared.effect.Effect.TheVariants.{Adds, Waits, Changes, Opens, Encloses, Calls, Closes, Parts, Dots};
ghost use Rattle.form_grammar.specs.declared.terminal.Terminal.TheVariants as by_terminal;
ghost use Rattle.form_lexer.specs.Reading.{kind_of};
ghost use Rattle.form_number.specs.Numbers.{value_of};
ghost use Rattle.form_grammar.specs.Effect.{effect_of as effect_at, operator_effect as operator_effect_of, raise_effect as raise_effect_of, call_effect as call_effect_of};
ghost use Rattle.form_grammar.specs.Reading.{Gives, applied, begun, changed as changed_by, changed_reading, finished, restriction_in, reading_of, room_for, run as run_from, step, with_name as with_name_of, with_number as with_number_of, with_set as with_set_of};
ghost use Rattle.form_grammar.specs.Terminal.{built_in_terminal, kind_terminal, mark_terminal as mark_terminal_of, terminal_of};

use crate::ReadError;
use crate::brackets::{Bracket, Brackets};
use crate::effect::{
    Change, Effect, Expected, Last, call_effect, effect_of, may_end, operator_effect,
};
use crate::terminal::{Terminal, mark_terminal};
use form_ast::{
    Expr, Link, LongExpr, NameList, Named, NumberList, Piece, Restriction, Setting, Sign,
    SignedNumber, Spelled,
};
use form_base::{Name, Spot};
use form_lexer::{BuiltIn, Mark, Shape, Token, TokenKind};
use form_number::{Number, WholeNumber};
use std::alloc::{AllocError, Global};
use std::mem::replace;
use std::vec::IntoIter;

/// So many parentheses may be open at a place, those of a power and of arguments with them.
pub const MOST_OPEN: usize = 64;

/// So many pieces a part has at least, but the last.
const LEAST_PIECES: usize = 960;

/// For so many there is room where a part is begun: below 64 KB, so that the memory is used again for what is small.
const MOST_PIECES: usize = 1024;

/// A right side or a pattern while it is read.
#[derive(Drop)]
pub struct Reader {
    alloc: Global,
    /// The pieces up to some term, in parts.
    parts: Vec<Expr>,
    /// Those behind them.
    pieces: Vec<Piece>,
    /// The parentheses that are open.
    opened: Brackets,
    /// What may come next.
    expected: Expected,
}

/// The first name of a dot product, where the piece is a name.
fn dotted(piece: Piece) -> Result<Piece, ReadError>
    ensures { Gives (λ piece. piece) result (changed_by Change.Dot piece) }
{
    match piece {
        Piece::Name(link, name) => Ok(Piece::Dot(link, name)),
        _ => Err(ReadError::BadSyntax),
    }
}

/// A name that has arguments, where the piece is a name and doesn't stand behind `/`.
#[inline(always)]
fn called(piece: Piece) -> Result<Piece, ReadError>
    ensures { Gives (λ piece. piece) result (changed_by Change.Call piece) }
{
    match piece {
        Piece::Name(Link::Over, _) => Err(ReadError::BadSyntax),
        Piece::Name(link, name) => Ok(Piece::Call(link, name)),
        _ => Err(ReadError::BadSyntax),
    }
}

/// A set restricts a wildcard, where nothing else does.
fn with_set(restriction: Restriction, set: Spelled) -> Result<Restriction, ReadError>
    ensures { Gives (λ r. r) result (with_set_of set restriction) }
{
    match restriction {
        Restriction::Any => Ok(Restriction::Set(set)),
        _ => Err(ReadError::BadSyntax),
    }
}

/// A further name, where none or names stand before it.
fn with_name(
    alloc: Global,
    restriction: Restriction,
    name: Spelled,
) -> Result<Restriction, ReadError>
    ensures { Gives (λ r. r) result (with_name_of name restriction) }
{
    let mut names = match restriction {
        Restriction::Any => Vec::new(alloc),
        Restriction::Names(names) => names.into_vec(),
        Restriction::Set(_) | Restriction::Numbers(_) => return Err(ReadError::BadSyntax),
    };
    names.push(name)?;
    Ok(Restriction::Names(NameList::from_vec(names)))
}

/// A further number, where none or numbers stand before it.
fn with_number(
    alloc: Global,
    restriction: Restriction,
    number: SignedNumber,
) -> Result<Restriction, ReadError>
    ensures { Gives (λ r. r) result (with_number_of number restriction) }
{
    let mut numbers = match restriction {
        Restriction::Any => Vec::new(alloc),
        Restriction::Numbers(numbers) => numbers.into_vec(),
        Restriction::Set(_) | Restriction::Names(_) => return Err(ReadError::BadSyntax),
    };
    numbers.push(number)?;
    Ok(Restriction::Numbers(NumberList::from_vec(numbers)))
}

/// Whether the piece is a name that may have arguments.
fn may_be_called(piece: &Piece) -> bool
    ensures { result ≡ is_some (changed_by Change.Call piece.now) }
{
    match piece {
        Piece::Name(Link::Over, _) => false,
        Piece::Name(_, _) => true,
        _ => false,
    }
}

/// A name has arguments, where the piece is one. It is looked at first, so that nothing else is moved.
fn call_piece(piece: &mut Piece) -> Result<(), ReadError>
    ensures { Gives (λ _. piece.new) result (changed_by Change.Call piece.old) }
{
    if !may_be_called(piece) {
        return Err(ReadError::BadSyntax);
    }
    *piece = called(replace(piece, Piece::Comma))?;
    Ok(())
}

/// What restricts a wildcard, where the piece is its mark.
fn restriction_of(piece: Piece) -> Result<Restriction, ReadError>
    ensures { Gives (λ r. r) result (restriction_in piece) }
{
    match piece {
        Piece::Marked(restriction) => Ok(restriction),
        _ => Err(ReadError::BadSyntax),
    }
}

/// The piece as what follows changes it.
fn changed(alloc: Global, piece: Piece, change: Change) -> Result<Piece, ReadError>
    ensures { Gives (λ piece. piece) result (changed_by change piece) }
{
    match change {
        Change::Dot => dotted(piece),
        Change::Call => called(piece),
        Change::Set(set) => Ok(Piece::Marked(with_set(restriction_of(piece)?, set)?)),
        Change::Name(name) => Ok(Piece::Marked(with_name(alloc, restriction_of(piece)?, name)?)),
        Change::Number(number) => {
            Ok(Piece::Marked(with_number(alloc, restriction_of(piece)?, number)?))
        }
    }
}

/// Changes a piece, where it may be changed so.
fn change_piece(alloc: Global, piece: &mut Piece, change: Change) -> Result<(), ReadError>
    ensures { Gives (λ _. piece.new) result (changed_by change piece.old) }
{
    *piece = changed(alloc, replace(piece, Piece::Comma), change)?;
    Ok(())
}

/// The right side that has these parts, and these pieces behind them.
#[tactic(auto, using(crate::proofs::Ended::last_part))]
fn whole(parts: Vec<Expr>, pieces: Vec<Piece>) -> Result<LongExpr, AllocError>
    ensures { IfOk result (λ expr. expr ≡ joined parts.items ++ pieces.items) }
{
    let mut parts = parts;
    parts.push(Expr::from_vec(pieces))?;
    Ok(LongExpr::from_vec(parts))
}

impl Reader {
    pub fn new(alloc: Global) -> Reader
        ensures { reading_of result ≡ begun }
    {
        Reader {
            alloc,
            parts: Vec::new(alloc),
            pieces: Vec::new(alloc),
            opened: Brackets::new(alloc),
            expected: Expected::Factor(Link::First),
        }
    }

    fn has_room(&self) -> bool
        ensures { result ≡ room_for (reading_of self.now) }
    {
        self.opened.len() < MOST_OPEN
    }

    /// Joins the parts.
    #[inline(never)]
    fn join(&mut self) -> Result<(), AllocError>
        ensures same { OnOk result (reading_of self.new ≡ reading_of self.old) }
        ensures joined { OnOk result (self.new.parts.items ≡ []) }
    {
        let parts = replace(&mut self.parts, Vec::new(self.alloc));
        let pieces = replace(&mut self.pieces, Vec::new(self.alloc));
        let whole = whole(parts, pieces)?.into_expr(self.alloc)?;
        self.pieces = whole.into_vec();
        Ok(())
    }

    /// Whether there is a piece with so many behind it, which then stands in no part that is ended.
    #[inline(always)]
    fn reaches(&mut self, behind: usize) -> Result<bool, AllocError>
        ensures same { OnOk result (reading_of self.new ≡ reading_of self.old) }
        ensures found { IfOk result (λ found. found ≡ true → behind < length self.new.pieces.items) }
        ensures missing { IfOk result (λ found. found ≡ false → length (reading_of self.new).pieces ≤ behind) }
    {
        if self.pieces.len() > behind {
            return Ok(true);
        }
        self.join()?;
        Ok(self.pieces.len() > behind)
    }

    /// Changes the piece that has so many behind it.
    fn change(&mut self, behind: usize, change: Change) -> Result<(), ReadError>
        ensures { Gives (λ _. reading_of self.new) result (changed_reading behind change (reading_of self.old)) }
    {
        if !self.reaches(behind)? {
            return Err(ReadError::BadSyntax);
        }
        let count = self.pieces.len();
        change_piece(self.alloc, &mut self.pieces[count - 1 - behind], change)
    }

    /// Changes the last piece, behind which this is expected.
    fn change_last(&mut self, change: Change, expected: Expected) -> Result<(), ReadError>
        ensures { Gives (λ _. reading_of self.new) result (applied (reading_of self.old) (Changes change expected)) }
    {
        self.change(0, change)?;
        self.expected = expected;
        Ok(())
    }

    /// Opens a parenthesis that is a factor.
    fn open(&mut self, link: Link) -> Result<(), ReadError>
        ensures { Gives (λ _. reading_of self.new) result (applied (reading_of self.old) (Opens link)) }
    {
        if !self.has_room() {
            return Err(ReadError::BadSyntax);
        }
        self.opened.push(Bracket::Parenthesis)?;
        self.add_slowly(Piece::Open(link), Expected::Factor(Link::First))
    }

    /// Opens another parenthesis, in which this is expected.
    fn enclose(&mut self, expected: Expected) -> Result<(), ReadError>
        ensures { Gives (λ _. reading_of self.new) result (applied (reading_of self.old) (Encloses expected)) }
    {
        if !self.has_room() {
            return Err(ReadError::BadSyntax);
        }
        self.expected = expected;
        Ok(())
    }

    /// The piece that has so many behind it has arguments.
    #[inline(always)]
    fn call_name(&mut self, behind: usize) -> Result<(), ReadError>
        ensures { Gives (λ _. reading_of self.new) result (changed_reading behind Change.Call (reading_of self.old)) }
    {
        if !self.reaches(behind)? {
            return Err(ReadError::BadSyntax);
        }
        let count = self.pieces.len();
        call_piece(&mut self.pieces[count - 1 - behind])
    }

    /// Opens the arguments of the last name, which has a mark or not.
    #[inline(never)]
    fn call(&mut self, is_marked: bool) -> Result<(), ReadError>
        ensures { Gives (λ _. reading_of self.new) result (applied (reading_of self.old) (Calls is_marked)) }
    {
        if !self.has_room() {
            return Err(ReadError::BadSyntax);
        }
        self.call_name(usize::from(is_marked))?;
        self.opened.push(Bracket::Arguments)?;
        self.expected = Expected::Argument;
        Ok(())
    }

    /// Closes what is open.
    #[inline(never)]
    fn close(&mut self) -> Result<(), ReadError>
        ensures { Gives (λ _. reading_of self.new) result (applied (reading_of self.old) Closes) }
    {
        let piece = match self.opened.pop() {
            Some(Bracket::Parenthesis) => Piece::Close,
            Some(Bracket::Arguments) => Piece::EndOfCall,
            None => return Err(ReadError::BadSyntax),
        };
        self.add(piece, Expected::Operator(Last::Enclosed))
    }

    /// Goes on to a further argument.
    #[inline(never)]
    fn part(&mut self) -> Result<(), ReadError>
        ensures { Gives (λ _. reading_of self.new) result (applied (reading_of self.old) Parts) }
    {
        if !self.opened.are_arguments() {
            return Err(ReadError::BadSyntax);
        }
        self.add(Piece::Comma, Expected::FurtherArgument)
    }

    /// Begins a dot product with the last name, which has a mark or not.
    fn dot(&mut self, is_marked: bool) -> Result<(), ReadError>
        ensures { Gives (λ _. reading_of self.new) result (applied (reading_of self.old) (Dots is_marked)) }
    {
        self.change(usize::from(is_marked), Change::Dot)?;
        self.expected = Expected::Vector;
        Ok(())
    }

    fn apply(&mut self, effect: Effect) -> Result<(), ReadError>
        ensures { Gives (λ _. reading_of self.new) result (applied (reading_of self.old) effect) }
    {
        match effect {
            Effect::Waits(expected) => self.wait(expected),
            Effect::Adds(piece, expected) => self.add_slowly(piece, expected),
            Effect::Changes(change, expected) => self.change_last(change, expected),
            Effect::Opens(link) => self.open(link),
            Effect::Encloses(expected) => self.enclose(expected),
            Effect::Calls(is_marked) => self.call(is_marked),
            Effect::Closes => self.close(),
            Effect::Parts => self.part(),
            Effect::Dots(is_marked) => self.dot(is_marked),
            Effect::Fails => Err(ReadError::BadSyntax),
        }
    }

    /// Goes one terminal further.
    pub fn take(&mut self, setting: Setting, terminal: Terminal) -> Result<(), ReadError>
        ensures { Gives (λ _. reading_of self.new) result (step setting (reading_of self.old) terminal) }
    {
        self.apply(effect_of(setting, self.expected, terminal))
    }

    /// Goes one piece further, behind which this is expected.
    #[inline(always)]
    fn add(&mut self, piece: Piece, expected: Expected) -> Result<(), ReadError>
        ensures { Gives (λ _. reading_of self.new) result (applied (reading_of self.old) (Adds piece expected)) }
    {
        self.pieces.push(piece)?;
        self.expected = expected;
        Ok(())
    }

    /// The same of a piece that is rare.
    #[inline(never)]
    fn add_slowly(&mut self, piece: Piece, expected: Expected) -> Result<(), ReadError>
        ensures { Gives (λ _. reading_of self.new) result (applied (reading_of self.old) (Adds piece expected)) }
    {
        self.add(piece, expected)
    }

    /// The number that is written so.
    #[inline(always)]
    fn number(&self, text: &str, spot: Spot) -> Result<Number, AllocError>
        ensures { IfOk result (λ number. number ≡ record { value = value_of text.now; spot = spot }) }
    {
        let value = WholeNumber::read(self.alloc, text.as_bytes())?;
        Ok(Number::new(value, spot))
    }

    /// A number as a factor, behind which an operator is expected.
    #[inline(never)]
    fn add_number(&mut self, link: Link, text: &str, spot: Spot) -> Result<(), ReadError>
        ensures { Gives (λ _. reading_of self.new) result (applied (reading_of self.old) (Adds (by_piece.Number link (record { value = value_of text.now; spot = spot })) (Operator by_last.Base))) }
    {
        let number = self.number(text, spot)?;
        self.add(Piece::Number(link, number), Expected::Operator(Last::Base))
    }

    /// The number of a power that stands outside parentheses.
    #[inline(never)]
    fn add_power(&mut self, sign: Option<Sign>, text: &str, spot: Spot) -> Result<(), ReadError>
        ensures { Gives (λ _. reading_of self.new) result (applied (reading_of self.old) (Adds (by_piece.Raised false sign (record { value = value_of text.now; spot = spot })) (Operator by_last.Power))) }
    {
        let number = self.number(text, spot)?;
        self.add(
            Piece::Raised(false, sign, number),
            Expected::Operator(Last::Power),
        )
    }

    /// Goes one number further where this is expected: the commonest ways at once.
    #[inline(always)]
    fn take_number(
        &mut self,
        setting: Setting,
        expected: Expected,
        text: &str,
        spot: Spot,
    ) -> Result<(), ReadError>
        requires { expected ≡ self.old.expected }
        ensures { Gives (λ _. reading_of self.new) result (applied (reading_of self.old) (effect_at setting expected (by_terminal.Number (record { value = value_of text.now; spot = spot })))) }
    {
        match expected {
            Expected::Factor(link) => self.add_number(link, text, spot),
            Expected::Argument => self.add_number(Link::First, text, spot),
            Expected::Exponent {
                is_on_enclosed: false,
                is_parenthesized: false,
                sign,
            } => self.add_power(sign, text, spot),
            _ => self.take_number_slowly(setting, text, spot),
        }
    }

    /// The same of any number.
    #[inline(never)]
    fn take_number_slowly(
        &mut self,
        setting: Setting,
        text: &str,
        spot: Spot,
    ) -> Result<(), ReadError>
        ensures { Gives (λ _. reading_of self.new) result (applied (reading_of self.old) (effect_at setting self.old.expected (by_terminal.Number (record { value = value_of text.now; spot = spot })))) }
    {
        let number = self.number(text, spot)?;
        self.apply(effect_of(setting, self.expected, Terminal::Number(number)))
    }

    /// A name as a factor, behind which an operator is expected.
    #[inline(never)]
    fn add_name(&mut self, link: Link, text: &str, spot: Spot) -> Result<(), ReadError>
        ensures { Gives (λ _. reading_of self.new) result (applied (reading_of self.old) (Adds (by_piece.Name link (Declared (record { name = text.now; spot = spot }))) (Operator by_last.Name))) }
    {
        let name = Name::new(self.alloc, text)?;
        self.add(
            Piece::Name(link, Named::Declared(Spelled { name, spot })),
            Expected::Operator(Last::Name),
        )
    }

    /// Goes one name further where this is expected.
    #[inline(always)]
    fn take_name(
        &mut self,
        setting: Setting,
        expected: Expected,
        text: &str,
        spot: Spot,
    ) -> Result<(), ReadError>
        requires { expected ≡ self.old.expected }
        ensures { Gives (λ _. reading_of self.new) result (applied (reading_of self.old) (effect_at setting expected (by_terminal.Name (record { name = text.now; spot = spot })))) }
    {
        match expected {
            Expected::Factor(link) => self.add_name(link, text, spot),
            Expected::Argument => self.add_name(Link::First, text, spot),
            Expected::FurtherArgument => self.add_name(Link::First, text, spot),
            _ => self.take_name_slowly(setting, text, spot),
        }
    }

    /// The same of any name.
    #[inline(never)]
    fn take_name_slowly(
        &mut self,
        setting: Setting,
        text: &str,
        spot: Spot,
    ) -> Result<(), ReadError>
        ensures { Gives (λ _. reading_of self.new) result (applied (reading_of self.old) (effect_at setting self.old.expected (by_terminal.Name (record { name = text.now; spot = spot })))) }
    {
        let name = Name::new(self.alloc, text)?;
        self.apply(effect_of(
            setting,
            self.expected,
            Terminal::Name(Spelled { name, spot }),
        ))
    }

    /// Goes one mark further where this is expected.
    #[inline(always)]
    fn take_mark(
        &mut self,
        setting: Setting,
        expected: Expected,
        mark: Mark,
    ) -> Result<(), ReadError>
        requires { expected ≡ self.old.expected }
        ensures { Gives (λ _. reading_of self.new) result (applied (reading_of self.old) (effect_at setting expected (mark_terminal_of mark))) }
    {
        match expected {
            Expected::Operator(last) => self.take_operator(setting, last, mark),
            Expected::Exponent {
                is_on_enclosed,
                is_parenthesized,
                sign: None,
            } if matches!(mark, Mark::Minus) => self.wait(Expected::Exponent {
                is_on_enclosed,
                is_parenthesized,
                sign: Some(Sign::Minus),
            }),
            _ => self.take_mark_slowly(setting, mark),
        }
    }

    /// The same of any mark.
    #[inline(never)]
    fn take_mark_slowly(&mut self, setting: Setting, mark: Mark) -> Result<(), ReadError>
        ensures { Gives (λ _. reading_of self.new) result (applied (reading_of self.old) (effect_at setting self.old.expected (mark_terminal_of mark))) }
    {
        self.apply(effect_of(setting, self.expected, mark_terminal(mark)))
    }

    /// The same behind a factor of which this stands last.
    #[inline(always)]
    fn take_operator(&mut self, setting: Setting, last: Last, mark: Mark) -> Result<(), ReadError>
        ensures { Gives (λ _. reading_of self.new) result (applied (reading_of self.old) (operator_effect_of setting last (mark_terminal_of mark))) }
    {
        match mark {
            Mark::Times => self.wait(Expected::Factor(Link::Times)),
            Mark::Over => self.wait(Expected::Factor(Link::Over)),
            Mark::Plus => self.wait_for_term(Link::Plus),
            Mark::Minus => self.wait_for_term(Link::Minus),
            Mark::Power => self.raise(last),
            Mark::Open => self.open_behind(last),
            Mark::Close => self.close(),
            Mark::Comma => self.part(),
            _ => self.take_operator_slowly(setting, last, mark),
        }
    }

    /// The same of any mark.
    #[inline(never)]
    fn take_operator_slowly(
        &mut self,
        setting: Setting,
        last: Last,
        mark: Mark,
    ) -> Result<(), ReadError>
        ensures { Gives (λ _. reading_of self.new) result (applied (reading_of self.old) (operator_effect_of setting last (mark_terminal_of mark))) }
    {
        self.apply(operator_effect(setting, last, mark_terminal(mark)))
    }

    /// Goes on to a power behind a factor of which this stands last.
    #[inline(always)]
    fn raise(&mut self, last: Last) -> Result<(), ReadError>
        ensures { Gives (λ _. reading_of self.new) result (applied (reading_of self.old) (raise_effect_of last)) }
    {
        match last {
            Last::Name => self.wait_for_power(false),
            Last::Imaginary => self.wait_for_power(false),
            Last::Marked => self.wait_for_power(false),
            Last::DotName => self.wait_for_power(false),
            Last::Base => self.wait_for_power(false),
            Last::Enclosed => self.wait_for_power(true),
            Last::Power => Err(ReadError::BadSyntax),
        }
    }

    /// A power is expected next, which stands on what has parentheses or not.
    #[inline(always)]
    fn wait_for_power(&mut self, is_on_enclosed: bool) -> Result<(), ReadError>
        ensures { Gives (λ _. reading_of self.new) result (applied (reading_of self.old) (Waits (Exponent is_on_enclosed false None))) }
    {
        self.wait(Expected::Exponent {
            is_on_enclosed,
            is_parenthesized: false,
            sign: None,
        })
    }

    /// Opens a parenthesis behind a factor of which this stands last.
    #[inline(always)]
    fn open_behind(&mut self, last: Last) -> Result<(), ReadError>
        ensures { Gives (λ _. reading_of self.new) result (applied (reading_of self.old) (call_effect_of last)) }
    {
        match last {
            Last::Name => self.call(false),
            _ => self.open_slowly(last),
        }
    }

    /// The same behind anything.
    #[inline(never)]
    fn open_slowly(&mut self, last: Last) -> Result<(), ReadError>
        ensures { Gives (λ _. reading_of self.new) result (applied (reading_of self.old) (call_effect_of last)) }
    {
        self.apply(call_effect(last))
    }

    /// Only this is expected next.
    #[inline(always)]
    fn wait(&mut self, expected: Expected) -> Result<(), ReadError>
        ensures { Gives (λ _. reading_of self.new) result (applied (reading_of self.old) (Waits expected)) }
    {
        self.expected = expected;
        Ok(())
    }

    /// A further term with this sign is expected next.
    #[inline(always)]
    fn wait_for_term(&mut self, link: Link) -> Result<(), ReadError>
        ensures { Gives (λ _. reading_of self.new) result (applied (reading_of self.old) (Waits (Factor link))) }
    {
        if self.pieces.len() >= LEAST_PIECES {
            self.end_part()?;
        }
        self.wait(Expected::Factor(link))
    }

    /// Ends a part, where no parenthesis is open.
    #[inline(never)]
    #[tactic(auto, using(crate::proofs::Ended::last_part))]
    fn end_part(&mut self) -> Result<(), AllocError>
        ensures same { OnOk result (reading_of self.new ≡ reading_of self.old) }
        ensures ended { OnOk result (self.old.opened ≡ [] → self.new.pieces.items ≡ []) }
        ensures kept { OnOk result ((self.old.opened ≡ [] → ⊥) → self.new.parts.items ≡ self.old.parts.items) }
    {
        if self.opened.len() == 0 {
            let next = Vec::with_capacity(self.alloc, MOST_PIECES)?;
            let pieces = replace(&mut self.pieces, next);
            self.parts.push(Expr::from_vec(pieces))?;
        }
        Ok(())
    }

    /// Goes one token further, that of this shape that is written so.
    #[inline(always)]
    pub fn take_shape(
        &mut self,
        setting: Setting,
        spot: Spot,
        shape: Shape,
        text: &str,
    ) -> Result<(), ReadError>
        ensures { Gives (λ _. reading_of self.new) result (step setting (reading_of self.old) (kind_terminal (kind_of shape text.now) spot)) }
    {
        match shape {
            Shape::Mark(mark) => self.take_mark(setting, self.expected, mark),
            Shape::Number => self.take_number(setting, self.expected, text, spot),
            Shape::Name => self.take_name(setting, self.expected, text, spot),
            Shape::BuiltIn(built_in) => self.take_built_in(setting, spot, built_in),
            Shape::Stray => self.take_stray(setting),
        }
    }

    /// The same of a name of the language.
    #[inline(never)]
    fn take_built_in(
        &mut self,
        setting: Setting,
        spot: Spot,
        built_in: BuiltIn,
    ) -> Result<(), ReadError>
        ensures { Gives (λ _. reading_of self.new) result (step setting (reading_of self.old) (built_in_terminal built_in spot)) }
    {
        let kind = TokenKind::BuiltIn(built_in);
        self.take(setting, Terminal::from(Token { kind, spot }))
    }

    /// The same of what is no token of the language.
    #[inline(never)]
    fn take_stray(&mut self, setting: Setting) -> Result<(), ReadError>
        ensures { Gives (λ _. reading_of self.new) result (step setting (reading_of self.old) by_terminal.Other) }
    {
        self.take(setting, Terminal::Other)
    }

    /// All of it, where it is complete.
    pub fn finish(self) -> Result<LongExpr, ReadError>
        ensures { Gives (λ expr. expr) result (finished (reading_of self)) }
    {
        if !may_end(self.expected) || self.opened.len() != 0 {
            return Err(ReadError::BadSyntax);
        }
        let Reader { parts, pieces, .. } = self;
        Ok(whole(parts, pieces)?)
    }
}

/// What the tokens are in this setting, as reading goes on to it.
#[tactic(auto, unfolding(crate::specs::Reading::run))]
pub fn run(alloc: Global, setting: Setting, tokens: IntoIter<Token>) -> Result<Expr, ReadError>
    ensures { Gives (λ expr. expr) result (run_from setting begun (map terminal_of (into_iter_items tokens))) }
{
    let mut reader = Reader::new(alloc);
    for token in tokens {
        reader.take(setting, Terminal::from(token))?;
    }
    Ok(reader.finish()?.into_expr(alloc)?)
}
