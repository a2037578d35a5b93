//! A right side that is read token by token as it comes, so that its tokens needn't be kept.
ghost use Rattle.std.specs.Prelude.{◌≡◌, true, List, [], ◌∷◌, ◌++◌, IfErr, IfOk, OnOk};
ghost use Rattle.form_grammar.specs.declared.error.ReadError.TheVariants.{BadSyntax};
ghost use Rattle.form_grammar.specs.declared.terminal.Terminal.{Terminal};
ghost use Rattle.form_grammar.specs.Grammar.{IsExpr};
ghost use Rattle.form_grammar.specs.Parts.{HasRead};
ghost use Rattle.form_grammar.specs.Reading.{Excludes};
ghost use Rattle.form_grammar.specs.Terminal.{kind_terminal};
ghost use Rattle.form_lexer.specs.Reading.{kind_of};

use crate::ReadError;
use crate::reader::Reader;
use crate::terminal::Terminal;
use form_ast::{LongExpr, Setting};
use form_base::Spot;
use form_lexer::Shape;
use std::alloc::{AllocError, Global};

/// A right side up to some token.
#[derive(Drop)]
pub struct RightSide {
    reader: Reader,
    /// Whether nothing that may follow makes a right side of it.
    has_failed: bool,
}

impl RightSide {
    pub fn new(alloc: Global) -> RightSide
        ensures { HasRead [] result }
    {
        RightSide {
            reader: Reader::new(alloc),
            has_failed: false,
        }
    }

    /// Nothing that may follow makes a right side of it, unless memory ran out.
    #[inline(never)]
    fn fail(&mut self, error: ReadError) -> Result<(), AllocError>
        ensures syntax { OnOk result (error ≡ BadSyntax) }
        ensures failed { OnOk result (self.new.has_failed ≡ true) }
    {
        match error {
            ReadError::BadSyntax => {
                self.has_failed = true;
                Ok(())
            }
            ReadError::Memory => Err(AllocError),
        }
    }

    /// Goes one terminal further.
    pub fn take(&mut self, terminal: Terminal) -> Result<(), AllocError>
        ensures { OnOk result ((read : List Terminal) → HasRead read self.old → HasRead (read ++ terminal ∷ []) self.new) }
    {
        if self.has_failed {
            return Ok(());
        }
        match self.reader.take(Setting::Plain, terminal) {
            Ok(()) => Ok(()),
            Err(error) => self.fail(error),
        }
    }

    /// Goes one token further, that of this shape that is written so and stands here.
    #[inline(always)]
    pub fn take_shape(&mut self, spot: Spot, shape: Shape, text: &str) -> Result<(), AllocError>
        ensures { OnOk result ((read : List Terminal) → HasRead read self.old → HasRead (read ++ kind_terminal (kind_of shape text.now) spot ∷ []) self.new) }
    {
        if self.has_failed {
            return Ok(());
        }
        match self.reader.take_shape(Setting::Plain, spot, shape, text) {
            Ok(()) => Ok(()),
            Err(error) => self.fail(error),
        }
    }

    /// The right side, where it is complete.
    pub fn finish(self) -> Result<LongExpr, ReadError>
        ensures found { IfOk result (λ expr. (read : List Terminal) → HasRead read self → IsExpr read expr) }
        ensures none { IfErr result (λ error. (read : List Terminal) → HasRead read self → Excludes error (IsExpr read)) }
    {
        let RightSide { reader, has_failed } = self;
        if has_failed {
            return Err(ReadError::BadSyntax);
        }
        reader.finish()
    }
}
