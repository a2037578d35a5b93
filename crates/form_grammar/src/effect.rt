ghost use Rattle.std.specs.Prelude.{◌≡◌};
ghost use Rattle.form_ast.specs.Syntax.{link_of};
ghost use Rattle.form_grammar.specs.Effect.{factor_effect as factor_effect_of, field_effect as field_effect_of, further_effect as further_effect_of, argument_effect as argument_effect_of, exponent_effect as exponent_effect_of, name_as_power as name_as_power_of, mark_effect as mark_effect_of, last_mark_effect as last_mark_effect_of, dot_effect as dot_effect_of, call_effect as call_effect_of, operator_effect as operator_effect_of, vector_effect as vector_effect_of, behind_entry as behind_entry_of, entry_effect as entry_effect_of, entry_comma_effect as entry_comma_effect_of, delta_closing_effect as delta_closing_effect_of, behind_wildcard as behind_wildcard_of, follower_effect as follower_effect_of, restriction_effect as restriction_effect_of, number_effect as number_effect_of, element_effect as element_effect_of, element_number_effect as element_number_effect_of, element_end_effect as element_end_effect_of, field_name_effect as field_name_effect_of, field_end_effect as field_end_effect_of, lone_effect as lone_effect_of, inner_effect as inner_effect_of, behind_number as behind_number_of, power_effect as power_effect_of, is_negative as is_negative_power, effect_of as effect, may_end as may_end_at};

use crate::terminal::Terminal;
use form_ast::{Link, Named, Piece, Power, Restriction, Setting, Sign, SignedNumber, Spelled};
use form_number::Number;

/// What stands last behind a factor.
#[derive(Clone, Copy)]
pub enum Last {
    /// A declared name alone.
    Name,
    /// `i_` alone.
    Imaginary,
    /// A wildcard alone, with its mark.
    Marked,
    /// The second name of a dot product, which is declared.
    DotName,
    /// Anything else without parentheses that a power may follow.
    Base,
    /// What has parentheses, on which no negative power stands.
    Enclosed,
    Power,
}

/// Where a name stands that may be a wildcard.
#[derive(Clone, Copy)]
pub enum Slot {
    /// It begins a factor.
    Factor,
    /// It is the second one of a dot product.
    DotEnd,
    /// It is the first argument of `d_`.
    FirstEntry,
    /// It is the second one.
    SecondEntry,
    /// It is a power.
    Power,
}

/// What may come next.
#[derive(Clone, Copy)]
pub enum Expected {
    /// A factor that stands so to what is before it, or its sign where it is the first.
    Factor(Link),
    /// The first argument of a name, or the `)` behind none.
    Argument,
    /// An argument behind a comma.
    FurtherArgument,
    /// A power: its number, its sign where it has none yet, or its `(` where it has neither.
    Exponent {
        /// Whether it stands on what has parentheses.
        is_on_enclosed: bool,
        is_parenthesized: bool,
        sign: Option<Sign>,
    },
    /// The `)` of a power.
    Closing,
    /// The mark of a wildcard that is a power.
    PowerMark,
    /// An operator, a `,`, a `)` or the end, or what may follow this.
    Operator(Last),
    /// The second name of a dot product.
    Vector,
    /// The `(` of a `d_`.
    Delta,
    /// Its first argument.
    FirstEntry,
    /// The `,` behind it, or its mark, where it is a declared name.
    EntryComma(bool),
    /// Its second argument.
    SecondEntry,
    /// Its `)`, or the mark of that argument, where it is a declared name.
    DeltaClosing(bool),
    /// What restricts a wildcard behind its mark, or what may follow this.
    Restriction(Slot),
    /// An element in braces.
    Element(Slot),
    /// The number of an element, behind this sign.
    ElementNumber(Slot, Sign),
    /// A `,` or a `}` behind an element.
    ElementEnd(Slot),
    /// The name of a field.
    FieldName,
    /// A `,` or a `)` behind a field.
    FieldEnd,
}

/// What what follows makes of a piece.
#[derive(Drop)]
pub enum Change {
    /// It is a name, and begins a dot product.
    Dot,
    /// It is a name, and has arguments.
    Call,
    /// It is a mark, and this set restricts the wildcard.
    Set(Spelled),
    /// It is a mark, and this name is a further element.
    Name(Spelled),
    /// It is a mark, and this number is a further element.
    Number(SignedNumber),
}

/// What a terminal does.
#[derive(Drop)]
pub enum Effect {
    /// Nothing but that this is expected next.
    Waits(Expected),
    /// It is this piece, behind which that is expected.
    Adds(Piece, Expected),
    /// It changes the last piece, behind which this is expected.
    Changes(Change, Expected),
    /// It opens a parenthesis that is a factor.
    Opens(Link),
    /// It opens another parenthesis, in which this is expected, and no other one is opened.
    Encloses(Expected),
    /// It opens the arguments of the last name, which has a mark or not.
    Calls(bool),
    /// It closes a parenthesis that is a factor, or arguments.
    Closes,
    /// It parts arguments.
    Parts,
    /// It makes the last name, which has a mark or not, the first one of a dot product.
    Dots(bool),
    /// It may not stand there.
    Fails,
}

/// How the first factor of a product stands behind its sign.
fn link_behind(sign: Sign) -> Link
    ensures { result ≡ link_of sign }
{
    match sign {
        Sign::Plus => Link::Plus,
        Sign::Minus => Link::Minus,
    }
}

fn factor_effect(link: Link, terminal: Terminal) -> Effect
    ensures { result ≡ factor_effect_of link terminal }
{
    match terminal {
        Terminal::Number(number) => Effect::Adds(
            Piece::Number(link, number),
            Expected::Operator(Last::Base),
        ),
        Terminal::Name(name) => Effect::Adds(
            Piece::Name(link, Named::Declared(name)),
            Expected::Operator(Last::Name),
        ),
        Terminal::Imaginary(spot) => Effect::Adds(
            Piece::Name(link, Named::Imaginary(spot)),
            Expected::Operator(Last::Imaginary),
        ),
        Terminal::Sign(sign) if matches!(link, Link::First) => {
            Effect::Waits(Expected::Factor(link_behind(sign)))
        }
        Terminal::Open if !matches!(link, Link::Over) => Effect::Opens(link),
        Terminal::Delta(spot) if !matches!(link, Link::Over) => {
            Effect::Adds(Piece::Delta(link, spot), Expected::Delta)
        }
        _ => Effect::Fails,
    }
}

/// What the mark of a field does where an argument is expected.
fn field_effect(setting: Setting) -> Effect
    ensures { result ≡ field_effect_of setting }
{
    match setting {
        Setting::Plain => Effect::Fails,
        Setting::Right | Setting::Pattern => Effect::Waits(Expected::FieldName),
    }
}

fn further_effect(setting: Setting, terminal: Terminal) -> Effect
    ensures { result ≡ further_effect_of setting terminal }
{
    match terminal {
        Terminal::Question => field_effect(setting),
        _ => factor_effect(Link::First, terminal),
    }
}

fn argument_effect(setting: Setting, terminal: Terminal) -> Effect
    ensures { result ≡ argument_effect_of setting terminal }
{
    match terminal {
        Terminal::Close => Effect::Closes,
        _ => further_effect(setting, terminal),
    }
}

fn is_negative(power: &Power) -> bool
    ensures { result ≡ is_negative_power power.now }
{
    matches!(power.sign, Some(Sign::Minus)) && !power.number.is_zero()
}

/// What may come behind the number of a power.
fn behind_number(is_parenthesized: bool) -> Expected
    ensures { result ≡ behind_number_of is_parenthesized }
{
    if is_parenthesized {
        Expected::Closing
    } else {
        Expected::Operator(Last::Power)
    }
}

/// What the number of a power does: a negative power stands on nothing that has parentheses.
fn power_effect(is_on_enclosed: bool, power: Power) -> Effect
    ensures { result ≡ power_effect_of is_on_enclosed power }
{
    if is_on_enclosed && is_negative(&power) {
        return Effect::Fails;
    }
    let Power {
        is_parenthesized,
        sign,
        number,
    } = power;
    Effect::Adds(
        Piece::Raised(is_parenthesized, sign, number),
        behind_number(is_parenthesized),
    )
}

/// What a name does as a power, which stands outside parentheses: in a pattern its mark follows.
fn name_as_power(setting: Setting, sign: Option<Sign>, name: Spelled) -> Effect
    ensures { result ≡ name_as_power_of setting sign name }
{
    match (setting, sign) {
        (Setting::Right, _) => Effect::Adds(
            Piece::RaisedByName(sign, Named::Declared(name)),
            Expected::Operator(Last::Power),
        ),
        (Setting::Pattern, None) => Effect::Adds(
            Piece::RaisedByName(None, Named::Declared(name)),
            Expected::PowerMark,
        ),
        _ => Effect::Fails,
    }
}

fn exponent_effect(
    setting: Setting,
    is_on_enclosed: bool,
    is_parenthesized: bool,
    sign: Option<Sign>,
    terminal: Terminal,
) -> Effect
    ensures { result ≡ exponent_effect_of setting is_on_enclosed is_parenthesized sign terminal }
{
    match (terminal, sign) {
        (Terminal::Number(number), _) => power_effect(
            is_on_enclosed,
            Power {
                is_parenthesized,
                sign,
                number,
            },
        ),
        (Terminal::Name(name), _) if !is_parenthesized => name_as_power(setting, sign, name),
        (Terminal::Sign(sign), None) => Effect::Waits(Expected::Exponent {
            is_on_enclosed,
            is_parenthesized,
            sign: Some(sign),
        }),
        (Terminal::Open, None) if !is_parenthesized => {
            Effect::Encloses(Expected::Exponent {
                is_on_enclosed,
                is_parenthesized: true,
                sign: None,
            })
        }
        _ => Effect::Fails,
    }
}

/// What the mark of a wildcard does where that may be expected behind it.
fn mark_effect(setting: Setting, slot: Slot) -> Effect
    ensures { result ≡ mark_effect_of setting slot }
{
    match setting {
        Setting::Pattern => Effect::Adds(
            Piece::Marked(Restriction::Any),
            Expected::Restriction(slot),
        ),
        Setting::Plain | Setting::Right => Effect::Fails,
    }
}

/// What the mark of a wildcard does behind this.
fn last_mark_effect(setting: Setting, last: Last) -> Effect
    ensures { result ≡ last_mark_effect_of setting last }
{
    match last {
        Last::Name => mark_effect(setting, Slot::Factor),
        Last::DotName => mark_effect(setting, Slot::DotEnd),
        _ => Effect::Fails,
    }
}

/// What a `.` does behind this.
fn dot_effect(last: Last) -> Effect
    ensures { result ≡ dot_effect_of last }
{
    match last {
        Last::Name | Last::Imaginary => Effect::Dots(false),
        Last::Marked => Effect::Dots(true),
        _ => Effect::Fails,
    }
}

/// What a `(` does behind this.
pub fn call_effect(last: Last) -> Effect
    ensures { result ≡ call_effect_of last }
{
    match last {
        Last::Name | Last::Imaginary => Effect::Calls(false),
        Last::Marked => Effect::Calls(true),
        _ => Effect::Fails,
    }
}

/// What a terminal does behind a factor of which this stands last.
pub fn operator_effect(setting: Setting, last: Last, terminal: Terminal) -> Effect
    ensures { result ≡ operator_effect_of setting last terminal }
{
    match terminal {
        Terminal::Sign(sign) => Effect::Waits(Expected::Factor(link_behind(sign))),
        Terminal::Times => Effect::Waits(Expected::Factor(Link::Times)),
        Terminal::Over => Effect::Waits(Expected::Factor(Link::Over)),
        Terminal::Close => Effect::Closes,
        Terminal::Comma => Effect::Parts,
        Terminal::Raise if !matches!(last, Last::Power) => Effect::Waits(Expected::Exponent {
            is_on_enclosed: matches!(last, Last::Enclosed),
            is_parenthesized: false,
            sign: None,
        }),
        Terminal::Period => dot_effect(last),
        Terminal::Open => call_effect(last),
        Terminal::Question => last_mark_effect(setting, last),
        _ => Effect::Fails,
    }
}

fn vector_effect(terminal: Terminal) -> Effect
    ensures { result ≡ vector_effect_of terminal }
{
    match terminal {
        Terminal::Name(name) => Effect::Adds(
            Piece::EndOfDot(Named::Declared(name)),
            Expected::Operator(Last::DotName),
        ),
        Terminal::Imaginary(spot) => Effect::Adds(
            Piece::EndOfDot(Named::Imaginary(spot)),
            Expected::Operator(Last::Base),
        ),
        _ => Effect::Fails,
    }
}

/// What may come behind an argument of `d_`, the first one or the second, which is a declared name or not.
fn behind_entry(is_first: bool, is_declared: bool) -> Expected
    ensures { result ≡ behind_entry_of is_first is_declared }
{
    if is_first {
        Expected::EntryComma(is_declared)
    } else {
        Expected::DeltaClosing(is_declared)
    }
}

/// What an argument of `d_` does, the first one or the second.
fn entry_effect(is_first: bool, terminal: Terminal) -> Effect
    ensures { result ≡ entry_effect_of is_first terminal }
{
    match terminal {
        Terminal::Name(name) => Effect::Adds(
            Piece::EntryName(Named::Declared(name)),
            behind_entry(is_first, true),
        ),
        Terminal::Imaginary(spot) => Effect::Adds(
            Piece::EntryName(Named::Imaginary(spot)),
            behind_entry(is_first, false),
        ),
        Terminal::Number(number) => {
            Effect::Adds(Piece::EntryNumber(number), behind_entry(is_first, false))
        }
        _ => Effect::Fails,
    }
}

fn entry_comma_effect(setting: Setting, is_declared: bool, terminal: Terminal) -> Effect
    ensures { result ≡ entry_comma_effect_of setting is_declared terminal }
{
    match terminal {
        Terminal::Comma => Effect::Waits(Expected::SecondEntry),
        Terminal::Question if is_declared => mark_effect(setting, Slot::FirstEntry),
        _ => Effect::Fails,
    }
}

fn delta_closing_effect(setting: Setting, is_declared: bool, terminal: Terminal) -> Effect
    ensures { result ≡ delta_closing_effect_of setting is_declared terminal }
{
    match terminal {
        Terminal::Close => Effect::Adds(Piece::EndOfDelta, Expected::Operator(Last::Enclosed)),
        Terminal::Question if is_declared => mark_effect(setting, Slot::SecondEntry),
        _ => Effect::Fails,
    }
}

/// What may come behind a wildcard with its restriction.
fn behind_wildcard(slot: Slot) -> Expected
    ensures { result ≡ behind_wildcard_of slot }
{
    match slot {
        Slot::Factor => Expected::Operator(Last::Marked),
        Slot::DotEnd => Expected::Operator(Last::Base),
        Slot::FirstEntry => Expected::EntryComma(false),
        Slot::SecondEntry => Expected::DeltaClosing(false),
        Slot::Power => Expected::Operator(Last::Power),
    }
}

/// What a terminal does behind a wildcard with its restriction.
fn follower_effect(setting: Setting, slot: Slot, terminal: Terminal) -> Effect
    ensures { result ≡ follower_effect_of setting slot terminal }
{
    match slot {
        Slot::Factor => operator_effect(setting, Last::Marked, terminal),
        Slot::DotEnd => operator_effect(setting, Last::Base, terminal),
        Slot::FirstEntry => entry_comma_effect(setting, false, terminal),
        Slot::SecondEntry => delta_closing_effect(setting, false, terminal),
        Slot::Power => operator_effect(setting, Last::Power, terminal),
    }
}

/// What a terminal does right behind the mark of a wildcard.
fn restriction_effect(setting: Setting, slot: Slot, terminal: Terminal) -> Effect
    ensures { result ≡ restriction_effect_of setting slot terminal }
{
    match terminal {
        Terminal::Name(name) => Effect::Changes(Change::Set(name), behind_wildcard(slot)),
        Terminal::OpenBrace => Effect::Waits(Expected::Element(slot)),
        _ => follower_effect(setting, slot, terminal),
    }
}

/// An element that is a number.
fn number_effect(slot: Slot, sign: Option<Sign>, number: Number) -> Effect
    ensures { result ≡ number_effect_of slot sign number }
{
    Effect::Changes(
        Change::Number(SignedNumber { sign, number }),
        Expected::ElementEnd(slot),
    )
}

fn element_effect(slot: Slot, terminal: Terminal) -> Effect
    ensures { result ≡ element_effect_of slot terminal }
{
    match terminal {
        Terminal::Name(name) => Effect::Changes(Change::Name(name), Expected::ElementEnd(slot)),
        Terminal::Number(number) => number_effect(slot, None, number),
        Terminal::Sign(sign) => Effect::Waits(Expected::ElementNumber(slot, sign)),
        _ => Effect::Fails,
    }
}

fn element_number_effect(slot: Slot, sign: Sign, terminal: Terminal) -> Effect
    ensures { result ≡ element_number_effect_of slot sign terminal }
{
    match terminal {
        Terminal::Number(number) => number_effect(slot, Some(sign), number),
        _ => Effect::Fails,
    }
}

fn element_end_effect(slot: Slot, terminal: Terminal) -> Effect
    ensures { result ≡ element_end_effect_of slot terminal }
{
    match terminal {
        Terminal::Comma => Effect::Waits(Expected::Element(slot)),
        Terminal::CloseBrace => Effect::Waits(behind_wildcard(slot)),
        _ => Effect::Fails,
    }
}

fn field_name_effect(terminal: Terminal) -> Effect
    ensures { result ≡ field_name_effect_of terminal }
{
    match terminal {
        Terminal::Name(name) => Effect::Adds(Piece::Field(name), Expected::FieldEnd),
        _ => Effect::Fails,
    }
}

fn field_end_effect(terminal: Terminal) -> Effect
    ensures { result ≡ field_end_effect_of terminal }
{
    match terminal {
        Terminal::Comma => Effect::Parts,
        Terminal::Close => Effect::Closes,
        _ => Effect::Fails,
    }
}

/// What a terminal does where one mark alone may stand, if anything.
fn lone_effect(setting: Setting, expected: Expected, terminal: Terminal) -> Effect
    ensures { result ≡ lone_effect_of setting expected terminal }
{
    match (expected, terminal) {
        (Expected::Closing, Terminal::Close) => { Effect::Waits(Expected::Operator(Last::Power)) }
        (Expected::Delta, Terminal::Open) => Effect::Encloses(Expected::FirstEntry),
        (Expected::PowerMark, Terminal::Question) => mark_effect(setting, Slot::Power),
        _ => Effect::Fails,
    }
}

/// What a terminal does in a pattern in what restricts a wildcard, or in a field.
fn inner_effect(setting: Setting, expected: Expected, terminal: Terminal) -> Effect
    ensures { result ≡ inner_effect_of setting expected terminal }
{
    match expected {
        Expected::Restriction(slot) => restriction_effect(setting, slot, terminal),
        Expected::Element(slot) => element_effect(slot, terminal),
        Expected::ElementNumber(slot, sign) => element_number_effect(slot, sign, terminal),
        Expected::ElementEnd(slot) => element_end_effect(slot, terminal),
        Expected::FieldName => field_name_effect(terminal),
        Expected::FieldEnd => field_end_effect(terminal),
        _ => lone_effect(setting, expected, terminal),
    }
}

/// What a terminal does in this setting where this is expected.
pub fn effect_of(setting: Setting, expected: Expected, terminal: Terminal) -> Effect
    ensures { result ≡ effect setting expected terminal }
{
    match expected {
        Expected::Factor(link) => factor_effect(link, terminal),
        Expected::Argument => argument_effect(setting, terminal),
        Expected::FurtherArgument => further_effect(setting, terminal),
        Expected::Exponent {
            is_on_enclosed,
            is_parenthesized,
            sign,
        } => exponent_effect(setting, is_on_enclosed, is_parenthesized, sign, terminal),
        Expected::Operator(last) => operator_effect(setting, last, terminal),
        Expected::Vector => vector_effect(terminal),
        Expected::FirstEntry => entry_effect(true, terminal),
        Expected::SecondEntry => entry_effect(false, terminal),
        Expected::EntryComma(is_declared) => entry_comma_effect(setting, is_declared, terminal),
        Expected::DeltaClosing(is_declared) => delta_closing_effect(setting, is_declared, terminal),
        Expected::Closing
        | Expected::PowerMark
        | Expected::Delta
        | Expected::Restriction(_)
        | Expected::Element(_)
        | Expected::ElementNumber(_, _)
        | Expected::ElementEnd(_)
        | Expected::FieldName
        | Expected::FieldEnd => inner_effect(setting, expected, terminal),
    }
}

/// Whether all may end where this is expected.
pub fn may_end(expected: Expected) -> bool
    ensures { result ≡ may_end_at expected }
{
    match expected {
        Expected::Operator(_) => true,
        Expected::Restriction(slot) => matches!(slot, Slot::Factor | Slot::DotEnd | Slot::Power),
        _ => false,
    }
}
