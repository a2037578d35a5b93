//! Whether names stand in a term.
ghost use Rattle.std.specs.Prelude.{◌≡◌};
ghost use Rattle.std.specs.List.{list_any};
ghost use Rattle.form_cond.specs.Occurring.{in_call as in_call_of, in_component as in_component_of, in_delta as in_delta_of, in_dot as in_dot_of, in_index as in_index_of, in_piece as in_piece_of, in_power as in_power_of, occurs as occurs_in};

use form_base::Id;
use form_term::{Call, Component, Delta, DotPower, Index, Piece, Power, Term};

/// Whether one of these names stands in a term.
pub fn any_occurs(names: &[Id], term: &Term) -> bool
    ensures { result ≡ list_any (λ n. occurs_in n term.now) names.now }
{
    names.iter().any(|name| occurs(*name, term))
}

#[tactic(auto, unfolding(crate::specs::Occurring::occurs))]
fn occurs(name: Id, term: &Term) -> bool
    ensures { result ≡ occurs_in name term.now }
{
    in_powers(name, term.powers())
        || in_dots(name, term.dots())
        || in_components(name, term.components())
        || in_deltas(name, term.deltas())
        || in_calls(name, term.functions())
        || in_calls(name, term.word())
}

fn in_powers(name: Id, powers: &[Power]) -> bool
    ensures { result ≡ list_any (in_power_of name) powers.now }
{
    powers.iter().any(|power| power.symbol == name)
}

fn in_dots(name: Id, dots: &[DotPower]) -> bool
    ensures { result ≡ list_any (in_dot_of name) dots.now }
{
    dots.iter().any(|dot| in_dot(name, dot))
}

fn in_components(name: Id, components: &[Component]) -> bool
    ensures { result ≡ list_any (in_component_of name) components.now }
{
    components
        .iter()
        .any(|component| in_component(name, component))
}

fn in_deltas(name: Id, deltas: &[Delta]) -> bool
    ensures { result ≡ list_any (in_delta_of name) deltas.now }
{
    deltas.iter().any(|delta| in_delta(name, delta))
}

fn in_calls(name: Id, calls: &[Call]) -> bool
    ensures { result ≡ list_any (in_call_of name) calls.now }
{
    calls.iter().any(|call| in_call(name, call))
}

/// Whether it is the function, or stands in an argument.
fn in_call(name: Id, call: &Call) -> bool
    ensures { result ≡ in_call_of name call.now }
{
    call.function() == name || in_pieces(name, call.pieces())
}

fn in_pieces(name: Id, pieces: &[Piece]) -> bool
    ensures { result ≡ list_any (in_piece_of name) pieces.now }
{
    pieces.iter().any(|piece| in_piece(name, piece))
}

fn in_piece(name: Id, piece: &Piece) -> bool
    ensures { result ≡ in_piece_of name piece.now }
{
    match piece {
        Piece::Negative(power) => power.symbol == name,
        Piece::Positive(symbol, _) => symbol.0 == name,
        Piece::NegativeDot(dot) => in_dot(name, dot),
        Piece::PositiveDot(left, right, _) => left.0 == name || right.0 == name,
        Piece::Component(component) => in_component(name, component),
        Piece::Delta(delta) => in_delta(name, delta),
        Piece::Function(function) => *function == name,
        Piece::NonCommuting(function) => *function == name,
        Piece::Index(index) => in_index(name, index),
        Piece::Vector(vector) => *vector == name,
        _ => false,
    }
}

fn in_dot(name: Id, dot: &DotPower) -> bool
    ensures { result ≡ in_dot_of name dot.now }
{
    dot.left == name || dot.right == name
}

fn in_component(name: Id, component: &Component) -> bool
    ensures { result ≡ in_component_of name component.now }
{
    component.vector == name || in_index(name, &component.index)
}

fn in_delta(name: Id, delta: &Delta) -> bool
    ensures { result ≡ in_delta_of name delta.now }
{
    in_index(name, &delta.first) || in_index(name, &delta.second)
}

fn in_index(name: Id, index: &Index) -> bool
    ensures { result ≡ in_index_of name index.now }
{
    match index {
        Index::Declared(declared) => *declared == name,
        _ => false,
    }
}
