ghost use Rattle.std.specs.Prelude.{◌≡◌, not, List, IfOk, OnOk, ℕ, Option, fold, map};
ghost use Rattle.form_module.specs.Inputs.{IsTreeOf, inputs_left, inputs_of};
ghost use Rattle.form_module.specs.Places.{right_side_at, right_side_by, with_place, with_standing, work_at};
ghost use Rattle.form_module.specs.Sets.{has};
ghost use Rattle.form_module.specs.Works.{and_definition, goes_through, and_standing, works_of};
ghost use Rattle.form_tree.specs.Tree.{Sum};
ghost use Rattle.form_check.specs.declared.checked.Checked.{Checked as AsChecked};

use crate::expression_set::{ExpressionSet, held};
use crate::inputs::{Inputs, Kept};
use form_base::Id;
use form_check::Checked;
use form_expand::{Standing, Stored, expand_tree};
use form_tree::Piece;
use std::alloc::{AllocError, Global};
use std::collections::BTreeMap;

/// What a module carries out, by expression: the place of its definition, none where the terms that it stands for go
/// through the module's statements.
pub fn works(
    alloc: Global,
    statements: &[Checked],
    standing: &[Stored],
) -> Result<BTreeMap<Id, Option<usize>>, AllocError>
    ensures { IfOk result (λ works.
        map (work_at statements.now) works.entries ≡ works_of statements.now standing.now) }
{
    let held = held(alloc, statements)?;
    let mut works = BTreeMap::new(alloc);
    add_standing(&mut works, &held, standing)?;
    add_definitions(&mut works, statements)?;
    Ok(works)
}

/// Adds the expressions that go through the statements.
fn add_standing(
    works: &mut BTreeMap<Id, Option<usize>>,
    held: &ExpressionSet,
    standing: &[Stored],
) -> Result<(), AllocError>
    ensures { OnOk result ((s : List AsChecked) →
        ((e : ℕ) → goes_through s e ≡ not (has held.now e)) →
        map (work_at s) works.new.entries ≡ fold (and_standing s) (map (work_at s) works.old.entries) standing.now) }
{
    for one in standing {
        note_standing(works, goes_through(held, one.expression), one.expression)?;
    }
    Ok(())
}

/// Adds the definitions among the statements.
fn add_definitions(
    works: &mut BTreeMap<Id, Option<usize>>,
    statements: &[Checked],
) -> Result<(), AllocError>
    ensures { OnOk result (map (work_at statements.now) works.new.entries
        ≡ fold and_definition (map (work_at statements.now) works.old.entries) statements.now) }
{
    for (place, statement) in statements.iter().enumerate() {
        note(works, place, statement)?;
    }
    Ok(())
}

/// Whether an expression that stands goes through the statements.
fn goes_through(held: &ExpressionSet, expression: Id) -> bool
    ensures { result ≡ not (has held.now expression) }
{
    !held.has(expression)
}

fn note_standing(
    works: &mut BTreeMap<Id, Option<usize>>,
    goes: bool,
    expression: Id,
) -> Result<(), AllocError>
    ensures { OnOk result (works.new.entries ≡ with_standing works.old.entries goes expression) }
{
    if goes {
        works.insert(expression, None)?;
    }
    Ok(())
}

/// Notes the place of a definition.
fn note(
    works: &mut BTreeMap<Id, Option<usize>>,
    place: usize,
    statement: &Checked,
) -> Result<(), AllocError>
    ensures { OnOk result (works.new.entries ≡ with_place works.old.entries place statement.now) }
{
    if let Checked::Local(expression, _) = statement {
        works.insert(*expression, Some(place))?;
    }
    Ok(())
}

/// What the statements are carried out on, of an expression whose definition is at a place, or that stands.
pub fn inputs<'a>(
    alloc: Global,
    limit: u64,
    statements: &'a [Checked],
    standing: &'a Standing,
    expression: Id,
    place: Option<usize>,
) -> Inputs<'a>
    ensures { (tree : Option Sum) → IsTreeOf (right_side_by statements.now place) tree →
        inputs_left result ≡ inputs_of limit standing.now expression tree }
{
    match place {
        Some(place) => {
            let right_side = right_side(statements, place);
            Inputs::Tree(expand_tree(alloc, right_side, limit, standing))
        }
        None => Inputs::Terms(Kept {
            terms: standing.terms_of(expression),
            taken: 0,
        }),
    }
}

/// The right side of the definition that is the statement at a place.
pub fn right_side(statements: &[Checked], place: usize) -> &[Piece]
    ensures { result.now ≡ right_side_at statements.now place }
{
    match statements.get(place) {
        Some(Checked::Local(_, right_side)) => right_side.as_slice(),
        _ => &[],
    }
}
