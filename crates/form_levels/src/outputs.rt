ghost use Rattle.std.specs.Prelude.{◌≡◌, List, length, map, IfOk, IfSome};
ghost use Rattle.form_flow.specs.Statements.{action as action_of, run};
ghost use Rattle.form_gathered.specs.Joined.{HaveSums, IsJoined, alone, counting_one};
ghost use Rattle.form_levels.specs.Heaps.{limits_of};
ghost use Rattle.form_levels.specs.Outputs.{HasOutputs};
ghost use Rattle.form_levels.specs.Runs.{Comes};
ghost use Rattle.form_term.specs.declared.monomial.Monomial.{Monomial as Input};

use crate::gathering::repeats;
use crate::heap::Heap;
use crate::levels::Levels;
use crate::pace::Pace;
use form_flow::{CompiledModule, ReadyAction};
use form_gathered::laws::sums_of_inputs;
use form_gathered::{JoinedTerm, counted, joined_inputs};
use form_term::Monomial;
use std::alloc::{AllocError, Global};

/// So many steps are gone ahead before the first batch is carried out.
const STEPS: u32 = 65_536;

/// With so many of its terms at most.
const LOOKED_AT: usize = 64;

/// What a module's statements make of a batch of inputs, joined; none where that gained nothing lately, or where it isn't certain
/// that no input is refused and that none has too many outputs.
pub fn joined_outputs(
    alloc: Global,
    compiled: &CompiledModule,
    inputs: &[Monomial],
    pace: &mut Pace,
) -> Result<Option<Vec<JoinedTerm>>, AllocError>
    ensures { IfOk result (λ made. IfSome made (λ outputs. HasOutputs compiled.now inputs.now outputs.items)) }
{
    if !pace.is_likely() {
        pace.end_batch(true);
        return Ok(None);
    }
    let Some(terms) = joined_inputs(alloc, inputs)? else {
        pace.end_batch(false);
        return Ok(None);
    };
    outputs_of(alloc, compiled, terms, pace)
}

/// The same of joined terms: of each list of which they have the sums. As equal ones have met, they go on also where that gained
/// nothing lately.
pub fn outputs_of_joined(
    alloc: Global,
    compiled: &CompiledModule,
    inputs: &[JoinedTerm],
    pace: &mut Pace,
) -> Result<Option<Vec<JoinedTerm>>, AllocError>
    ensures { (list : List Input) → HaveSums inputs.now list →
        IfOk result (λ made. IfSome made (λ outputs. HasOutputs compiled.now list outputs.items)) }
{
    sums_of_inputs();
    outputs_of(alloc, compiled, each_once(alloc, inputs)?, pace)
}

/// Copies of joined terms that count one each.
fn each_once(alloc: Global, terms: &[JoinedTerm]) -> Result<Vec<JoinedTerm>, AllocError>
    ensures { IfOk result (λ all. all.items ≡ map counting_one terms.now) }
{
    let mut all = Vec::with_capacity(alloc, terms.len())?;
    for term in terms {
        all.push(copy_once(term)?)?;
    }
    Ok(all)
}

fn copy_once(term: &JoinedTerm) -> Result<JoinedTerm, AllocError>
    ensures { IfOk result (λ copy. copy ≡ counting_one term.now) }
{
    Ok(JoinedTerm {
        term: term.term.clone()?,
        sum: term.sum,
        weight: term.weight,
        count: 1,
    })
}

/// What the statements make of a batch of inputs for each of which, as a list, these terms stand.
fn outputs_of(
    alloc: Global,
    compiled: &CompiledModule,
    terms: Vec<JoinedTerm>,
    pace: &mut Pace,
) -> Result<Option<Vec<JoinedTerm>>, AllocError>
    ensures { (inputs : List Input) → IsJoined (length inputs) terms.items (alone inputs) →
        IfOk result (λ made. IfSome made (λ outputs. HasOutputs compiled.now inputs outputs.items)) }
{
    pace.begin_batch();
    let outputs = batch_outputs(alloc, compiled, terms, pace)?;
    pace.end_batch(outputs.is_some());
    Ok(outputs)
}

/// The same of a batch that was begun. Where a refusal is near it is left to the walk of each input, which comes to it soon.
fn batch_outputs(
    alloc: Global,
    compiled: &CompiledModule,
    terms: Vec<JoinedTerm>,
    pace: &mut Pace,
) -> Result<Option<Vec<JoinedTerm>>, AllocError>
    ensures { (inputs : List Input) → IsJoined (length inputs) terms.items (alone inputs) →
        IfOk result (λ made. IfSome made (λ outputs. HasOutputs compiled.now inputs outputs.items)) }
{
    if is_refused_soon(alloc, compiled, &terms, pace)? {
        return Ok(None);
    }
    let levels = Levels { alloc, compiled };
    let Some(outputs) = levels.statements(compiled.block().as_slice(), terms, pace)? else {
        return Ok(None);
    };
    let Some(count) = counted(&outputs) else {
        return Ok(None);
    };
    if count > compiled.limit() {
        return Ok(None);
    }
    Ok(Some(outputs))
}

/// Whether one of the first terms is refused soon, as it is defined: that a `repeat` never ends shows there in one way of a term,
/// and in levels when their terms are very many. It is asked of the first batch, where something is repeated.
fn is_refused_soon(
    alloc: Global,
    compiled: &CompiledModule,
    terms: &[JoinedTerm],
    pace: &mut Pace,
) -> Result<bool, AllocError> {
    if let Some(refused) = pace.refused() {
        return Ok(refused);
    }
    let refused = repeats(compiled) && are_first_refused(alloc, compiled, terms)?;
    pace.note_refused(refused);
    Ok(refused)
}

fn are_first_refused(
    alloc: Global,
    compiled: &CompiledModule,
    terms: &[JoinedTerm],
) -> Result<bool, AllocError> {
    let mut steps = STEPS;
    for joined in terms.iter().take(LOOKED_AT) {
        if is_refused(alloc, compiled, joined, &mut steps)? {
            return Ok(true);
        }
    }
    Ok(false)
}

fn is_refused(
    alloc: Global,
    compiled: &CompiledModule,
    joined: &JoinedTerm,
    steps: &mut u32,
) -> Result<bool, AllocError> {
    let item = Monomial {
        coefficient: joined.sum,
        term: joined.term.clone()?,
    };
    compiled
        .outputs(alloc, item)
        .are_refused_ahead(alloc, steps)
}

impl<'m, 'a> Levels<'m, 'a> {
    /// All statements, where it isn't asked on whose way something acted. What the last one makes isn't brought together.
    fn statements(
        &self,
        block: &[ReadyAction<'a>],
        terms: Vec<JoinedTerm>,
        pace: &mut Pace,
    ) -> Result<Option<Vec<JoinedTerm>>, AllocError>
        ensures { IfOk result (λ made. IfSome made (λ outputs. Comes (run (limits_of self.now) block.now) terms.items outputs.items)) }
    {
        let Some((last, others)) = block.split_last() else {
            return Ok(Some(terms));
        };
        let mut terms = terms;
        for action in others {
            let joins = pace.is_likely();
            let Some(more) = self.statement(action, terms, joins, pace)? else {
                return Ok(None);
            };
            terms = more;
        }
        self.statement(last, terms, false, pace)
    }

    /// A statement on all terms.
    fn statement(
        &self,
        action: &ReadyAction<'a>,
        terms: Vec<JoinedTerm>,
        joins: bool,
        pace: &mut Pace,
    ) -> Result<Option<Vec<JoinedTerm>>, AllocError>
        ensures { IfOk result (λ made. IfSome made (λ all. Comes (action_of (limits_of self.now) action.now) terms.items all.items)) }
    {
        let mut heap = Heap::new(self.alloc, joins);
        let Some(idle) = self.act(action, terms, &mut heap, pace)? else {
            return Ok(None);
        };
        if !heap.put_untouched(idle)? {
            return Ok(None);
        }
        Ok(Some(heap.into_vec(pace)?))
    }
}
