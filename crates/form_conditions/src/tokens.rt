//! Tokens that are taken one by one.
ghost use Rattle.std.specs.Prelude.{◌≡◌, [], ◌∷◌, ◌++◌, map, length, true, MatchOption, None, IfOk, if◌then◌else◌};
ghost use Rattle.std.specs.Vec.Iter.{into_iter_items};
ghost use Rattle.form_conditions.specs.Grammar.{comparison_of as comparison_of_terminal};
ghost use Rattle.form_conditions.specs.Reading.{behind_sign, comparison_at, sign_at, signed_number as signed_number_of, take_name as take_name_of, take_number as take_number_of};
ghost use Rattle.form_conditions.specs.Tokens.{begins as begins_so, behind_peeked, is_wanted as is_wanted_terminal, left, nesting_of as nesting_of_terminal, tail_of, take as take_of, terminals};
ghost use Rattle.form_grammar.specs.Reading.{Gives};
ghost use Rattle.form_grammar.specs.Terminal.{terminal_of};

use form_ast::{Sign, SignedNumber, Spelled};
use form_base::Comparison;
use form_grammar::{ReadError, Terminal};
use form_lexer::{Mark, Token, TokenKind};
use form_number::Number;
use std::alloc::{AllocError, Global};
use std::marker::Model;
use std::vec::IntoIter;

/// What may be looked for at the front.
#[derive(Clone, Copy)]
pub enum Wanted {
    And,
    Or,
    Over,
    Comma,
    Open,
    Close,
    Plus,
    Minus,
    /// Any name.
    Name,
}

fn is_wanted(wanted: Wanted, token: &Token) -> bool
    ensures { result ≡ is_wanted_terminal wanted (terminal_of token.now) }
{
    match wanted {
        Wanted::And => matches!(token.kind, TokenKind::Mark(Mark::And)),
        Wanted::Or => matches!(token.kind, TokenKind::Mark(Mark::Or)),
        Wanted::Over => matches!(token.kind, TokenKind::Mark(Mark::Over)),
        Wanted::Comma => matches!(token.kind, TokenKind::Mark(Mark::Comma)),
        Wanted::Open => matches!(token.kind, TokenKind::Mark(Mark::Open)),
        Wanted::Close => matches!(token.kind, TokenKind::Mark(Mark::Close)),
        Wanted::Plus => matches!(token.kind, TokenKind::Mark(Mark::Plus)),
        Wanted::Minus => matches!(token.kind, TokenKind::Mark(Mark::Minus)),
        Wanted::Name => matches!(token.kind, TokenKind::Name(_)),
    }
}

/// What a mark compares.
fn comparison_of(token: &Token) -> Option<Comparison>
    ensures { result ≡ comparison_of_terminal (terminal_of token.now) }
{
    match token.kind {
        TokenKind::Mark(Mark::Equals) => Some(Comparison::EqualTo),
        TokenKind::Mark(Mark::EqualTo) => Some(Comparison::EqualTo),
        TokenKind::Mark(Mark::NotEqualTo) => Some(Comparison::NotEqualTo),
        TokenKind::Mark(Mark::Less) => Some(Comparison::Less),
        TokenKind::Mark(Mark::Greater) => Some(Comparison::Greater),
        TokenKind::Mark(Mark::AtMost) => Some(Comparison::AtMost),
        TokenKind::Mark(Mark::AtLeast) => Some(Comparison::AtLeast),
        _ => None,
    }
}

/// Whether a token opens or closes a parenthesis.
#[derive(Clone, Copy)]
pub enum Nesting {
    Opens,
    Closes,
    Neither,
}

pub fn nesting_of(token: &Token) -> Nesting
    ensures { result ≡ nesting_of_terminal (terminal_of token.now) }
{
    match token.kind {
        TokenKind::Mark(Mark::Open) => Nesting::Opens,
        TokenKind::Mark(Mark::Close) => Nesting::Closes,
        _ => Nesting::Neither,
    }
}

/// Tokens that are taken one by one, of which the first may be looked at before.
#[derive(Drop)]
pub struct Tokens {
    peeked: Option<Token>,
    rest: IntoIter<Token>,
}

impl Tokens {
    pub fn new(tokens: IntoIter<Token>) -> Tokens
        ensures { left result ≡ terminals tokens }
    {
        Tokens {
            peeked: None,
            rest: tokens,
        }
    }

    /// Sees to it that the first one has been looked at.
    fn peek(&mut self)
        ensures same { left self.new ≡ left self.old }
        ensures none { self.new.peeked ≡ None → left self.old ≡ [] }
    {
        if let None = self.peeked {
            self.peeked = self.rest.next();
        }
    }

    pub fn next(&mut self) -> Option<Token>
        ensures { MatchOption result (left self.old ≡ []) (λ token. left self.old ≡ terminal_of token ∷ left self.new) }
    {
        self.peek();
        match self.peeked.take() {
            Some(token) => Some(token),
            None => None,
        }
    }

    pub fn begins(&mut self, wanted: Wanted) -> bool
        ensures begins { result ≡ begins_so wanted (left self.old) }
        ensures same { left self.new ≡ left self.old }
    {
        self.peek();
        match &self.peeked {
            Some(token) => is_wanted(wanted, token),
            None => false,
        }
    }

    /// Takes the first one where it is what is wanted.
    pub fn takes(&mut self, wanted: Wanted) -> bool
        ensures takes { result ≡ begins_so wanted (left self.old) }
        ensures rest { left self.new ≡ (if result then tail_of (left self.old) else left self.old) }
        ensures taken { result ≡ true → self.new.peeked ≡ None }
    {
        self.peek();
        let Some(token) = &self.peeked else {
            return false;
        };
        if !is_wanted(wanted, token) {
            return false;
        }
        self.peeked = None;
        true
    }

    /// What is wanted has to stand there.
    pub fn take(&mut self, wanted: Wanted) -> Result<(), ReadError>
        ensures { Gives (λ _. left self.new) result (take_of wanted (left self.old)) }
    {
        if self.takes(wanted) {
            Ok(())
        } else {
            Err(ReadError::BadSyntax)
        }
    }

    pub fn take_name(&mut self) -> Result<Spelled, ReadError>
        ensures { Gives (λ name. (name, left self.new)) result (take_name_of (left self.old)) }
    {
        let Some(token) = self.next() else {
            return Err(ReadError::BadSyntax);
        };
        match Terminal::from(token) {
            Terminal::Name(name) => Ok(name),
            _ => Err(ReadError::BadSyntax),
        }
    }

    pub fn take_number(&mut self) -> Result<Number, ReadError>
        ensures { Gives (λ number. (number, left self.new)) result (take_number_of (left self.old)) }
    {
        let Some(token) = self.next() else {
            return Err(ReadError::BadSyntax);
        };
        match Terminal::from(token) {
            Terminal::Number(number) => Ok(number),
            _ => Err(ReadError::BadSyntax),
        }
    }

    /// A sign, where one stands there.
    fn sign(&mut self) -> Option<Sign>
        ensures sign { result ≡ sign_at (left self.old) }
        ensures rest { left self.new ≡ behind_sign (left self.old) }
    {
        if self.takes(Wanted::Plus) {
            return Some(Sign::Plus);
        }
        if self.takes(Wanted::Minus) {
            return Some(Sign::Minus);
        }
        None
    }

    pub fn signed_number(&mut self) -> Result<SignedNumber, ReadError>
        ensures { Gives (λ number. (number, left self.new)) result (signed_number_of (left self.old)) }
    {
        let sign = self.sign();
        let number = self.take_number()?;
        Ok(SignedNumber { sign, number })
    }

    /// A mark that compares, where one stands there.
    pub fn comparison(&mut self) -> Option<Comparison>
        ensures comparison { result ≡ comparison_at (left self.old) }
        ensures rest { MatchOption result (left self.new ≡ left self.old) (λ _. left self.new ≡ tail_of (left self.old)) }
    {
        self.peek();
        let Some(token) = &self.peeked else {
            return None;
        };
        let Some(comparison) = comparison_of(token) else {
            return None;
        };
        self.peeked = None;
        Some(comparison)
    }

    /// What follows the parenthesis that has to be closed there.
    pub fn closed(self) -> Result<IntoIter<Token>, ReadError>
        ensures { Gives (λ rest. terminals rest) result (take_of Wanted.Close (left self)) }
    {
        let mut tokens = self;
        if !tokens.takes(Wanted::Close) {
            return Err(ReadError::BadSyntax);
        }
        Ok(tokens.rest)
    }
}

/// The tokens of a pattern that is begun: in a clause their list, as the grammar sees them.
#[derive(Drop)]
pub struct PatternTokens {
    tokens: Vec<Token>,
}

impl Model for PatternTokens {
    ghost use Rattle.std.specs.Prelude.{List, map};
    ghost use Rattle.form_grammar.specs.Terminal.{terminal_of};
    ghost use Rattle.form_grammar.specs.declared.terminal.Terminal.{Terminal};

    ghost Value = { List Terminal };

    ghost view = { λ t. map terminal_of t.tokens.items };
}

impl PatternTokens {
    pub fn new(alloc: Global) -> PatternTokens
        ensures { result ≡ [] }
    {
        PatternTokens {
            tokens: Vec::new(alloc),
        }
    }

    pub fn len(&self) -> usize
        ensures { result ≡ length self.now }
    {
        self.tokens.len()
    }

    /// These, and a further one.
    pub fn extended_by(self, token: Token) -> Result<PatternTokens, AllocError>
        ensures { IfOk result (λ tokens. tokens ≡ self ++ terminal_of token ∷ []) }
    {
        let PatternTokens { mut tokens } = self;
        tokens.push(token)?;
        Ok(PatternTokens { tokens })
    }

    pub fn into_iter(self) -> IntoIter<Token>
        ensures { map terminal_of (into_iter_items result) ≡ self }
    {
        let PatternTokens { tokens } = self;
        tokens.into_iter()
    }
}
