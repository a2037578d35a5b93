ghost use Rattle.std.specs.Prelude.{◌≡◌, ◌<◌, ℕ, [], ◌∷◌, Ok, Some, IfOk, suc, true, false};
ghost use Rattle.std.specs.List.{list_all};
ghost use Rattle.form_term.specs.Term.{Term};
ghost use Rattle.form_tree.specs.Pattern.{Factors, pieces_of_factors};
ghost use Rattle.form_match.specs.Fits.{Fits};
ghost use Rattle.form_rewrite.specs.Goes.{goes_on};
ghost use Rattle.form_rewrite.specs.Ways.{EndsWith, FitsOften, IsOnce, IsTaken, all_more, is_exact as is_exact_by, is_many as is_many_by, leaves_words as leaves_words_of, taken_by};
ghost use Rattle.form_rewrite.specs.Takes.{taken_in};
ghost use Rattle.form_rewrite.specs.Taking.{and_match as with_match, and_more as with_more, fits_times as fits_times_of, is_idle_use as takes_nothing, multiplied, option_by, take_out as taken_out, taken_so_far, untouched, usual as usual_of};
ghost use Rattle.form_rewrite.specs.declared.taken.Take.TheVariants.{Untaken};

use crate::cuts::{cuts_by, cuts_given, places};
use crate::often::{fits_times, so_often};
use crate::weight::most_matches;
use crate::{Cut, Cuts, Matches, Origin, Single, Take, Taken, laws};
use form_base::Taking;
use form_bindings::Bindings;
use form_match::{Match, Pattern, Use, first_of, left_of};
use form_term::Term;
use std::alloc::{AllocError, Global};

/// What a pattern takes out of a term, whose word has been cut at these places.
pub fn take_out(
    alloc: Global,
    term: Term,
    cuts: &[u32],
    pattern: &Pattern,
    option: Option<Taking>,
) -> Result<Take, AllocError>
    ensures taken { (fs : Factors) → pattern.now.pieces ≡ pieces_of_factors fs →
        IfOk result (λ take. taken_in take ≡ taken_out pattern.now.fixed fs option term cuts.now) }
    ensures untaken { (t : Term) → result ≡ Ok (Untaken t) → t ≡ term }
{
    laws::plain_patterns_fit();
    let Some(found) = first_of(alloc, pattern, &term, cuts, is_exact(option))? else {
        return Ok(Take::Untaken(term));
    };
    let option = option_of(option, pattern);
    if !is_alone(option, &term, cuts, found.takes.as_slice()) {
        return take_several(alloc, term, cuts, pattern, option, found);
    }
    let left = left_of(alloc, term, found.takes.as_slice())?;
    if has_more(alloc, pattern, option, &left)? {
        return go_on(alloc, pattern, left, found.bindings);
    }
    Ok(Take::Single(Single {
        left,
        bindings: found.bindings,
    }))
}

/// Whether a match has to take whole powers.
fn is_exact(option: Option<Taking>) -> bool
    ensures { result ≡ is_exact_by option }
{
    match option {
        Some(Taking::Only) => true,
        _ => false,
    }
}

/// Whether the first match is taken once, and no word is cut, neither before it nor by it. (Where it is said not to be so,
/// nothing is claimed.)
fn is_alone(option: Taking, term: &Term, cuts: &[u32], takes: &[Use]) -> bool
    ensures uncut { result ≡ true → cuts.now ≡ [] }
    ensures takes { result ≡ true → list_all leaves_words_of takes.now ≡ true }
    ensures once { result ≡ true → IsOnce option term.now takes.now }
{
    match cuts {
        [] => leave_words(takes) && is_once(option, term, takes),
        [_, ..] => false,
    }
}

/// Whether a match is taken once by the option.
fn is_once(option: Taking, term: &Term, takes: &[Use]) -> bool
    ensures { result ≡ true → IsOnce option term.now takes.now }
{
    match option {
        Taking::Multi => fits_times(term, takes) == 1,
        Taking::Once => true,
        Taking::Only => true,
        Taking::Many => true,
    }
}

/// Whether more matches are to be taken out of what one match alone left.
fn has_more(
    alloc: Global,
    pattern: &Pattern,
    option: Taking,
    left: &Term,
) -> Result<bool, AllocError>
    ensures many { IfOk result (λ more. more ≡ true → is_many_by option ≡ true) }
    ensures ended { (fs : Factors) → pattern.now.pieces ≡ pieces_of_factors fs →
        IfOk result (λ more. more ≡ false → is_many_by option ≡ true → EndsWith pattern.now.fixed fs left.now) }
{
    if is_many(option) {
        let more = is_another(alloc, pattern, left)?;
        Ok(more)
    } else {
        Ok(false)
    }
}

/// Whether there is a match in what one match alone left, and one that takes something.
fn is_another(alloc: Global, pattern: &Pattern, left: &Term) -> Result<bool, AllocError>
    ensures { (fs : Factors) → pattern.now.pieces ≡ pieces_of_factors fs →
        IfOk result (λ more. more ≡ false → EndsWith pattern.now.fixed fs left.now) }
{
    let Some(next) = first_of(alloc, pattern, left, &[], false)? else {
        return Ok(false);
    };
    if is_idle(next.takes.as_slice()) {
        return Ok(false);
    }
    Ok(true)
}

fn is_many(option: Taking) -> bool
    ensures { result ≡ is_many_by option }
{
    match option {
        Taking::Many => true,
        Taking::Once => false,
        Taking::Only => false,
        Taking::Multi => false,
    }
}

/// Whether no stretch of a word is taken.
fn leave_words(takes: &[Use]) -> bool
    ensures { result ≡ list_all leaves_words_of takes.now }
{
    takes.iter().all(|one| leaves_words(one))
}

fn leaves_words(one: &Use) -> bool
    ensures { result ≡ leaves_words_of one.now }
{
    match one {
        Use::Stretch(_, _) => false,
        _ => true,
    }
}

/// The option that a pattern is taken by. `multi` is for plain patterns alone.
fn option_of(option: Option<Taking>, pattern: &Pattern) -> Taking
    ensures { result ≡ option_by option pattern.now.pieces }
{
    match option {
        Some(Taking::Once) => Taking::Once,
        Some(Taking::Only) => Taking::Only,
        Some(Taking::Many) => Taking::Many,
        Some(Taking::Multi) => usual(pattern),
        None => usual(pattern),
    }
}

/// The option of a pattern that is given none.
fn usual(pattern: &Pattern) -> Taking
    ensures { result ≡ usual_of pattern.now.pieces }
{
    if pattern.is_plain() {
        Taking::Multi
    } else if pattern.has_power() {
        Taking::Once
    } else {
        Taking::Many
    }
}

/// A match, so many times.
fn so_many_times(
    alloc: Global,
    term: Term,
    cuts: Cuts,
    times: u32,
    found: Match,
) -> Result<Taken, AllocError>
    requires fits { Fits found.takes term }
    requires times { times ≡ fits_times_of term found.takes }
    requires some { 0 < times }
    ensures { IfOk result (λ taken. taken ≡ multiplied (taken_so_far term cuts [] 1) found) }
{
    let _ = term.powers();
    let Match { takes, bindings } = found;
    let takes = so_often(alloc, times, takes.as_slice())?;
    let left = left_of(alloc, term, takes.as_slice())?;
    let mut matches = Matches::new(alloc);
    matches.push(bindings)?;
    Ok(Taken {
        left,
        cuts,
        matches,
        times,
    })
}

/// A match, as often as it fits. What a plain pattern takes fits at least once: any other match is taken once.
fn as_often_as_it_fits(
    alloc: Global,
    term: Term,
    cuts: Vec<Cut>,
    found: Match,
) -> Result<Taken, AllocError>
    requires { Fits found.takes term }
    ensures { 0 < fits_times_of term found.takes →
        IfOk result (λ taken. taken ≡ multiplied (taken_so_far term cuts.items [] 1) found) }
{
    let times = fits_times(&term, found.takes.as_slice());
    if times == 0 {
        return and_match(alloc, term, cuts, Matches::new(alloc), 1, found);
    }
    let taken = so_many_times(alloc, term, Cuts::from_vec(cuts), times, found)?;
    Ok(taken)
}

/// One match, and those in what it left.
fn go_on(
    alloc: Global,
    pattern: &Pattern,
    left: Term,
    bindings: Bindings,
) -> Result<Take, AllocError>
    ensures taken { (fs : Factors) → pattern.now.pieces ≡ pieces_of_factors fs → IfOk result (λ take. taken_in take
        ≡ Some (all_more pattern.now.fixed fs (taken_so_far left [] (bindings ∷ []) 1))) }
    ensures some { IfOk result IsTaken }
{
    let single = Single { left, bindings };
    let taken = single.into_taken(alloc)?;
    let all = and_more(alloc, pattern, taken)?;
    Ok(Take::Several(all))
}

/// What is taken where this is the first match.
fn take_several(
    alloc: Global,
    term: Term,
    cuts: &[u32],
    pattern: &Pattern,
    option: Taking,
    found: Match,
) -> Result<Take, AllocError>
    requires { Fits found.takes term }
    ensures taken { (fs : Factors) → pattern.now.pieces ≡ pieces_of_factors fs → FitsOften option term found.takes → IfOk result (λ take. taken_in take
        ≡ Some (taken_by option pattern.now.fixed fs (untouched term cuts.now) found)) }
    ensures some { IfOk result IsTaken }
{
    let taken = take_by(alloc, term, cuts, pattern, option, found)?;
    Ok(Take::Several(taken))
}

fn take_by(
    alloc: Global,
    term: Term,
    cuts: &[u32],
    pattern: &Pattern,
    option: Taking,
    found: Match,
) -> Result<Taken, AllocError>
    requires { Fits found.takes term }
    ensures { (fs : Factors) → pattern.now.pieces ≡ pieces_of_factors fs → FitsOften option term found.takes → IfOk result (λ taken. taken
        ≡ taken_by option pattern.now.fixed fs (untouched term cuts.now) found) }
{
    let cuts = cuts_given(alloc, cuts)?;
    match option {
        Taking::Once => {
            let taken = and_match(alloc, term, cuts, Matches::new(alloc), 1, found)?;
            Ok(taken)
        }
        Taking::Only => {
            let taken = and_match(alloc, term, cuts, Matches::new(alloc), 1, found)?;
            Ok(taken)
        }
        Taking::Multi => {
            let taken = as_often_as_it_fits(alloc, term, cuts, found)?;
            Ok(taken)
        }
        Taking::Many => {
            let taken = and_match(alloc, term, cuts, Matches::new(alloc), 1, found)?;
            let all = and_more(alloc, pattern, taken)?;
            Ok(all)
        }
    }
}

/// The matches in what is left, one after the other. Each takes something, so there are no more than the exponents and
/// things of the term add up to.
fn and_more(alloc: Global, pattern: &Pattern, taken: Taken) -> Result<Taken, AllocError>
    ensures { (fs : Factors) → pattern.now.pieces ≡ pieces_of_factors fs →
        IfOk result (λ more. more ≡ all_more pattern.now.fixed fs taken) }
{
    let most = most_matches(&taken.left);
    let all = and_at_most(alloc, pattern, most, taken)?;
    Ok(all)
}

/// So many matches more at most.
fn and_at_most(
    alloc: Global,
    pattern: &Pattern,
    most: u128,
    taken: Taken,
) -> Result<Taken, AllocError>
    ensures { (fs : Factors) → pattern.now.pieces ≡ pieces_of_factors fs →
        IfOk result (λ more. more ≡ with_more most pattern.now.fixed fs taken) }
{
    let mut taken = taken;
    for _made in 0..most {
        match another(alloc, pattern, taken)? {
            More::Done(all) => return Ok(all),
            More::Another(more) => taken = more,
        }
    }
    Ok(taken)
}

/// What is taken with the next match, or without, where there is none that takes something.
#[derive(Drop)]
enum More {
    Done(Taken),
    Another(Taken),
}

/// The first match of what is left.
#[tactic(auto, unfolding(crate::specs::Taking::and_more))]
fn another(alloc: Global, pattern: &Pattern, taken: Taken) -> Result<More, AllocError>
    ensures { (fs : Factors) → pattern.now.pieces ≡ pieces_of_factors fs →
        IfOk result (λ more. (n : ℕ) → goes_on n pattern.now.fixed fs more ≡ with_more (suc n) pattern.now.fixed fs taken) }
{
    let places = places(alloc, taken.cuts.as_slice())?;
    let Some(found) = first_of(alloc, pattern, &taken.left, &places, false)? else {
        return Ok(More::Done(taken));
    };
    if is_idle(found.takes.as_slice()) {
        return Ok(More::Done(taken));
    }
    let Taken {
        left,
        cuts,
        matches,
        times,
    } = taken;
    let more = and_match(alloc, left, cuts.into_vec(), matches, times, found)?;
    Ok(More::Another(more))
}

/// One match more.
fn and_match(
    alloc: Global,
    left: Term,
    cuts: Vec<Cut>,
    matches: Matches,
    times: u32,
    found: Match,
) -> Result<Taken, AllocError>
    requires { Fits found.takes left }
    ensures { IfOk result (λ taken. taken ≡ with_match (taken_so_far left cuts.items matches times) found) }
{
    let Match { takes, bindings } = found;
    let number = matches.len();
    let cuts = cuts_by(alloc, Origin::TakenBy(number), cuts, takes.as_slice())?;
    let left = left_of(alloc, left, takes.as_slice())?;
    let mut matches = matches;
    matches.push(bindings)?;
    Ok(Taken {
        left,
        cuts: Cuts::from_vec(cuts),
        matches,
        times,
    })
}

/// Whether a match takes nothing.
fn is_idle(takes: &[Use]) -> bool
    ensures { result ≡ list_all takes_nothing takes.now }
{
    takes.iter().all(|one| is_idle_use(one))
}

fn is_idle_use(one: &Use) -> bool
    ensures { result ≡ takes_nothing one.now }
{
    match one {
        Use::Symbol(_, power) => power.unsigned_abs() == 0,
        Use::Stretch(_, length) => *length == 0,
        _ => false,
    }
}
