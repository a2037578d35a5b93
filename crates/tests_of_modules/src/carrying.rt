//! Terms carried out to one who takes what they become.

ghost use Rattle.std.specs.Prelude.{◌≡◌, All, IfOk, pos};
ghost use Rattle.form_flow.specs.Making.{HasAllTrees};
ghost use Rattle.form_tree.specs.declared.tree.Link.TheVariants.{Plus};
ghost use Rattle.form_tree.specs.declared.tree.Piece.TheVariants as pieces;

use crate::statements::{block_of, rewriting};
use form_base::{Cause, Id};
use form_check::CheckedBlock;
use form_flow::{CompiledModule, Emit, End, Go};
use form_frac::Frac;
use form_term::{Monomial, Term};
use form_tree::{Link, Piece};
use std::alloc::{AllocError, Global};
use std::test::Fail;

/// Takes so many outputs.
#[derive(Drop)]
struct Taker {
    most: usize,
    taken: Vec<Monomial>,
    has_stopped: bool,
}

impl Emit for Taker {
    ghost emitted = { λ taker. taker.taken.items };

    ghost has_stopped = { λ taker. taker.has_stopped };

    fn emit(&mut self, alloc: Global, item: Monomial) -> Result<Go, AllocError> {
        let _ = alloc;
        self.taken.push(item)?;
        if self.taken.len() < self.most {
            return Ok(Go::Continues);
        }
        self.has_stopped = true;
        Ok(Go::Stops)
    }
}

/// `id x = y + z`, x being the symbol 0.
fn statements(alloc: Global) -> Result<CheckedBlock, AllocError>
    ensures { IfOk result (λ block. All HasAllTrees block) }
{
    let right = [symbol(1), symbol(2)];
    block_of(alloc, rewriting(alloc, &right)?)
}

fn symbol(position: u32) -> Piece
    ensures { result ≡ pieces.Symbol Plus position (pos 1) }
{
    Piece::Symbol {
        link: Link::Plus,
        symbol: Id::new(position),
        power: 1,
    }
}

/// How carrying x out by it ends, and the symbols that were taken, of two at most.
fn carried(alloc: Global, limit: u64, most: usize) -> Result<(&'static str, u32, u32), AllocError> {
    let statements = statements(alloc)?;
    let module = CompiledModule::new(alloc, limit, 100, &statements)?;
    let term = Term::symbol(alloc, Id::new(0), 1)?;
    Ok(carried_through(alloc, &module, &term, most))
}

fn carried_through(
    alloc: Global,
    module: &CompiledModule,
    term: &Term,
    most: usize,
) -> (&'static str, u32, u32) {
    let mut taker = Taker {
        most,
        taken: Vec::new(alloc),
        has_stopped: false,
    };
    let end = module.carry(alloc, Frac::one(), term, &mut taker);
    let (first, second) = symbols_of(&taker.taken);
    (ending(end), first, second)
}

fn ending(end: End) -> &'static str {
    match end {
        End::Done => "done",
        End::Refused(Cause::ExpandLimit) => "too many",
        End::Refused(_) => "refused",
        End::Stopped => "stopped",
        End::Memory => "memory",
    }
}

fn symbols_of(taken: &[Monomial]) -> (u32, u32) {
    match taken {
        [only] => (symbol_in(only), 0),
        [first, second] => (symbol_in(first), symbol_in(second)),
        _ => (0, 0),
    }
}

fn symbol_in(item: &Monomial) -> u32 {
    match item.term.powers() {
        [only] => only.symbol.position(),
        _ => 0,
    }
}

#[test]
fn outputs_are_taken_in_order_up_to_their_end(rt: HostRuntime) -> Result<(), Fail> {
    let alloc = rt.alloc();
    assert_eq!(rt; carried(alloc, 100, 100)?, ("done", 1, 2));
    assert_eq!(rt; carried(alloc, 1, 100)?, ("too many", 1, 0));
    assert_eq!(rt; carried(alloc, 100, 1)?, ("stopped", 1, 0));
    Ok(())
}
