//! The values that a loop's variable takes.

ghost use Rattle.std.specs.Prelude.{◌≡◌, None, Some, IfOk, MatchOption};
ghost use Rattle.std.specs.Fmt.{signed_decimal};
ghost use Rattle.form_preproc.specs.Answers.{Gives, IsNext};
ghost use Rattle.form_preproc.specs.Instruction as instruction;

use crate::bytes::is_signed_number;
use crate::error::LineError;
use form_base::Cause;
use form_calc::{Number, Row, Stack, Text, number_of};
use std::alloc::{AllocError, Global};

/// The values that are left.
#[derive(Drop)]
pub struct Turns {
    texts: Stack<Text>,
    /// Whether they are numbers and no texts.
    is_counted: bool,
    next: Number,
    last: Number,
    step: Number,
}

/// A loop's variable and its values.
#[derive(Drop)]
pub struct Looped {
    pub name: Text,
    pub turns: Turns,
}

fn is_past(next: Number, last: Number, step: Number) -> bool
    ensures { result ≡ instruction.is_past next last step }
{
    is_past_value(next.value(), last.value(), step.value())
}

fn is_past_value(next: Option<i128>, last: Option<i128>, step: Option<i128>) -> bool
    ensures { result ≡ instruction.is_past next last step }
{
    let Some(next) = next else {
        return true;
    };
    let Some(last) = last else {
        return true;
    };
    let Some(step) = step else {
        return true;
    };
    if step < 0 { next < last } else { last < next }
}

/// A number as it is written, and nothing where it is out of range.
fn decimal_of(alloc: Global, number: Number) -> Result<Text, AllocError>
    ensures { IfOk result (λ text. text ≡ instruction.decimal_of number) }
{
    match number.value() {
        Some(number) => {
            let digits = format!(in alloc; "{number}")?;
            Text::from_slice(alloc, digits.as_bytes())
        }
        None => Ok(Text::new(alloc)),
    }
}

impl Turns {
    /// Texts, in order.
    pub fn of_texts(texts: Row<Text>) -> Turns
        ensures { result ≡ instruction.text_turns texts }
    {
        Turns {
            texts: texts.into_stack(),
            is_counted: false,
            next: Number::zero(),
            last: Number::zero(),
            step: Number::zero(),
        }
    }

    fn of_numbers(alloc: Global, next: Number, last: Number, step: Number) -> Turns
        ensures { result ≡ instruction.number_turns next last step }
    {
        Turns {
            texts: Stack::new(alloc),
            is_counted: true,
            next,
            last,
            step,
        }
    }

    /// Takes the next value.
    pub fn next(&mut self, alloc: Global) -> Result<Option<Text>, AllocError>
        ensures { IsNext self.new result (instruction.next_value self.old) }
    {
        if !self.is_counted {
            return Ok(self.texts.pop());
        }
        if is_past(self.next, self.last, self.step) {
            return Ok(None);
        }
        let text = decimal_of(alloc, self.next)?;
        self.next = self.next.plus(self.step);
        Ok(Some(text))
    }
}

/// A loop over numbers.
fn ranged(
    alloc: Global,
    name: &[u8],
    first: Number,
    last: Number,
    step: Number,
) -> Result<Looped, LineError>
    ensures { Gives result (instruction.ranged name.now first last step) }
{
    let Some(_) = first.value() else {
        return Err(LineError::Refused(Cause::CalcRange));
    };
    let Some(_) = last.value() else {
        return Err(LineError::Refused(Cause::CalcRange));
    };
    let Some(size) = step.value() else {
        return Err(LineError::Refused(Cause::CalcRange));
    };
    if size == 0 {
        return Err(LineError::Refused(Cause::BadInstruction));
    }
    Ok(Looped {
        name: Text::from_slice(alloc, name)?,
        turns: Turns::of_numbers(alloc, first, last, step),
    })
}

/// A loop over the numbers that these parts write.
pub fn counted_parts(alloc: Global, name: &[u8], parts: &[Text]) -> Result<Looped, LineError>
    ensures { Gives result (instruction.counted_parts name.now parts.now) }
{
    match parts {
        [first, last] => {
            let first = first.as_slice();
            let last = last.as_slice();
            if !(is_signed_number(first) && is_signed_number(last)) {
                return Err(LineError::Refused(Cause::BadInstruction));
            }
            ranged(
                alloc,
                name,
                number_of(first),
                number_of(last),
                Number::one(),
            )
        }
        [first, last, step] => {
            let first = first.as_slice();
            let last = last.as_slice();
            let step = step.as_slice();
            if !(is_signed_number(first) && (is_signed_number(last) && is_signed_number(step))) {
                return Err(LineError::Refused(Cause::BadInstruction));
            }
            ranged(
                alloc,
                name,
                number_of(first),
                number_of(last),
                number_of(step),
            )
        }
        _ => Err(LineError::Refused(Cause::BadInstruction)),
    }
}
