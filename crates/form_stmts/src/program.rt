ghost use Rattle.std.specs.Prelude.{◌≡◌, List, ℕ, [], ◌∷◌, IfErr, IfOk, OnOk, None, is_some, false};
ghost use Rattle.form_ast.specs.Lawful.{AreLawfulModules};
ghost use Rattle.form_stmts.specs.Begun.{is_front};
ghost use Rattle.form_stmts.specs.Program.{IsProgram, IsRefusal, IsLexed, Lexed, token as lexed_token, token_of, period, is_semicolon_kind, first_spot as first_spot_of};
ghost use Rattle.form_lexer.specs.Reading.{kind_of};
ghost use Rattle.form_stmts.specs.Line.{PlacedLine};

use crate::instruction::{begins_with_period, is_module_instruction};
use crate::statement::{begins_definition, read_begun};
use crate::{Line, ProgramError};
use form_ast::Module;
use form_base::Spot;
use form_blocks::{ModuleText, parts_of};
use form_grammar::{ReadError, RightSide};
use form_lexer::{Mark, Shape, Token, kind, laws, next_token};
use std::alloc::{AllocError, Global};
use std::mem;

/// A program while it is read.
#[derive(Drop)]
struct Reader {
    /// The tokens of the statement that is begun, of a definition those up to its `=`.
    tokens: Vec<Token>,
    /// What is read of the right side, where a definition is begun and its `=` is read.
    right_side: Option<RightSide>,
    /// The module that is begun.
    current: ModuleText,
    modules: Vec<Module>,
}

fn is_semicolon(shape: Shape) -> bool
    ensures { (text : List ℕ) → result ≡ is_semicolon_kind (kind_of shape text) }
{
    matches!(shape, Shape::Mark(Mark::Semicolon))
}

/// Where tokens begin.
fn first_spot(tokens: &[Token]) -> Option<Spot>
    ensures { result ≡ first_spot_of tokens.now }
{
    match tokens {
        [first, ..] => Some(first.spot),
        [] => None,
    }
}

impl Reader {
    ghost use Rattle.form_stmts.specs.Progress.{EndsModule, EndsStatement, IsRefusedModule, LeavesStatement, ReadTo, ReadsOn, Refuses, RefusesLine};

    fn new(alloc: Global) -> Reader
        ensures { ReadTo [] result }
    {
        Reader {
            tokens: Vec::new(alloc),
            right_side: None,
            current: ModuleText::new(alloc),
            modules: Vec::new(alloc),
        }
    }

    /// Ends the statement that is begun.
    #[inline(never)]
    fn end_statement(&mut self, alloc: Global) -> Result<(), AllocError>
        ensures { OnOk result (EndsStatement self.old self.new) }
    {
        let tokens = mem::replace(&mut self.tokens, Vec::new(alloc));
        let right_side = self.right_side.take();
        let Some(spot) = first_spot(&tokens) else {
            return Ok(());
        };
        let reading = match read_begun(alloc, tokens, right_side) {
            Ok(reading) => Some(reading),
            Err(ReadError::BadSyntax) => None,
            Err(ReadError::Memory) => return Err(AllocError),
        };
        self.current.read(spot, reading)
    }

    /// Leaves the statement that is begun, where there is one: no `;` ends it.
    fn leave_statement(&mut self, alloc: Global) -> Result<(), AllocError>
        ensures { OnOk result (LeavesStatement self.old self.new) }
    {
        let tokens = mem::replace(&mut self.tokens, Vec::new(alloc));
        self.right_side = None;
        match first_spot(&tokens) {
            Some(spot) => self.current.read(spot, None),
            None => Ok(()),
        }
    }

    /// Goes one token further, that of this shape that is written so and stands here, where no right side is begun and no
    /// statement ends.
    #[inline(never)]
    fn take_front(
        &mut self,
        alloc: Global,
        spot: Spot,
        shape: Shape,
        text: &str,
    ) -> Result<(), ProgramError>
        requires token { is_semicolon_kind (kind_of shape text.now) ≡ false }
        requires none { self.old.right_side ≡ None }
        ensures read { OnOk result (ReadsOn self.old (lexed_token (token_of spot shape text.now) ∷ []) self.new) }
        ensures begins { OnOk result (is_some self.new.right_side ≡ is_front self.new.tokens.items) }
        ensures refused { IfErr result (λ error. Refuses self.old (lexed_token (token_of spot shape text.now) ∷ []) error) }
    {
        let kind = kind(alloc, shape, text)?;
        self.keep(alloc, Token { kind, spot })
    }

    /// Keeps a token of a statement that is begun, where no right side is. Behind the front of a definition one begins.
    fn keep(&mut self, alloc: Global, token: Token) -> Result<(), ProgramError>
        requires token { is_semicolon_kind token.kind ≡ false }
        requires none { self.old.right_side ≡ None }
        ensures read { OnOk result (ReadsOn self.old (lexed_token token ∷ []) self.new) }
        ensures begins { OnOk result (is_some self.new.right_side ≡ is_front self.new.tokens.items) }
        ensures refused { IfErr result (λ error. Refuses self.old (lexed_token token ∷ []) error) }
    {
        self.tokens.push(token)?;
        if begins_definition(&self.tokens) {
            self.right_side = Some(RightSide::new(alloc));
        }
        Ok(())
    }

    /// Ends the module that is begun.
    fn end_module(&mut self, alloc: Global) -> Result<(), ProgramError>
        ensures ended { OnOk result (EndsModule self.old self.new) }
        ensures refused { IfErr result (λ error. IsRefusedModule self.old.current error) }
    {
        let current = mem::replace(&mut self.current, ModuleText::new(alloc));
        match current.end() {
            Ok(statements) => {
                let parts = parts_of(alloc, statements)?;
                self.modules.push(Module::from_vec(parts))?;
                Ok(())
            }
            Err(spot) => Err(ProgramError::BadSyntax(spot)),
        }
    }

    /// Ends the module that is begun, where the line is an instruction for that.
    #[inline(never)]
    fn take_instruction(&mut self, alloc: Global, line: &Line<'_>) -> Result<(), ProgramError>
        ensures read { OnOk result (ReadsOn self.old (period line.now ∷ []) self.new) }
        ensures refused { IfErr result (λ error. Refuses self.old (period line.now ∷ []) error) }
    {
        self.leave_statement(alloc)?;
        if is_module_instruction(line.text().as_bytes()) {
            return self.end_module(alloc);
        }
        self.current.read(line.spot(), None)?;
        Ok(())
    }

    #[inline(never)]
    fn take_line(&mut self, alloc: Global, line: &Line<'_>) -> Result<(), ProgramError>
        ensures read { OnOk result ((here : List Lexed) × IsLexed line.now here × ReadsOn self.old here self.new) }
        ensures refused { IfErr result (λ error. RefusesLine self.old line.now error) }
    {
        if begins_with_period(line.text().as_bytes()) {
            return self.take_instruction(alloc, line);
        }
        laws::one_list_of_tokens();
        let spot = line.spot();
        let mut rest = line.text();
        while let Some((shape, text, others)) = next_token(rest) {
            rest = others;
            if is_semicolon(shape) {
                self.end_statement(alloc)?;
                continue;
            }
            if let Some(right_side) = &mut self.right_side {
                right_side.take_shape(spot, shape, text)?;
                continue;
            }
            // a copy, so that a shape that isn't handed on needn't stand in memory
            let rare = shape;
            self.take_front(alloc, spot, rare, text)?;
        }
        Ok(())
    }
}

/// The modules of a program, up to the last instruction of its lines. The first refusal in the order of the text is
/// answered.
pub fn read_program(alloc: Global, lines: Vec<Line<'_>>) -> Result<Vec<Module>, ProgramError>
    ensures program { IfOk result (λ modules. IsProgram lines.entry.items modules.items) }
    ensures lawful { IfOk result (λ modules. AreLawfulModules modules.items) }
    ensures refused { IfErr result (λ error. IsRefusal error lines.entry.items) }
{
    laws::one_list_of_tokens();
    let mut reader = Reader::new(alloc);
    for line in lines {
        reader.take_line(alloc, &line)?;
    }
    let Reader {
        current,
        modules,
        ..
    } = reader;
    match current.end() {
        Ok(_) => Ok(modules),
        Err(spot) => Err(ProgramError::BadSyntax(spot)),
    }
}
