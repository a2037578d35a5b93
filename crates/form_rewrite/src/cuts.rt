//! Where a word is cut.
ghost use Rattle.std.specs.Prelude.{◌≡◌, ◌≤◌, IfOk, length, map};
ghost use Rattle.std.specs.List.{prefix_len};
ghost use Rattle.form_rewrite.specs.Taking.{cut_out as cut_out_of, cuts_by as cuts_by_uses, given_cuts, is_before as is_before_place, moved as moved_by};

use crate::{Cut, Origin};
use form_match::Use;
use std::alloc::{AllocError, Global};

/// The places at which a word has been cut, by their numbers.
pub fn cuts_given(alloc: Global, places: &[u32]) -> Result<Vec<Cut>, AllocError>
    ensures { IfOk result (λ cuts. cuts.items ≡ given_cuts places.now) }
{
    let mut cuts = Vec::new(alloc);
    for number in 0..places.len() {
        let origin = Origin::Given(number);
        cuts.push(Cut {
            place: places[number],
            origin,
        })?;
    }
    Ok(cuts)
}

/// The places of these cuts.
pub fn places(alloc: Global, cuts: &[Cut]) -> Result<Vec<u32>, AllocError>
    ensures { IfOk result (λ places. places.items ≡ map (λ c. c.place) cuts.now) }
{
    let mut places = Vec::new(alloc);
    for cut in cuts {
        places.push(cut.place)?;
    }
    Ok(places)
}

/// The cuts once a match was taken out.
pub fn cuts_by(
    alloc: Global,
    origin: Origin,
    cuts: Vec<Cut>,
    takes: &[Use],
) -> Result<Vec<Cut>, AllocError>
    ensures { IfOk result (λ made. made.items ≡ cuts_by_uses origin cuts.items takes.now) }
{
    let mut cuts = cuts;
    for one in takes {
        if let Use::Stretch(start, length) = one {
            cuts = cut_out(alloc, *start, *length, origin, &cuts)?;
        }
    }
    Ok(cuts)
}

/// The cuts once a stretch was taken out: those behind it move to the front, and one comes in its place.
#[tactic(auto, unfolding(crate::specs::Taking::cut_out))]
fn cut_out(
    alloc: Global,
    start: u32,
    length: u32,
    origin: Origin,
    cuts: &[Cut],
) -> Result<Vec<Cut>, AllocError>
    ensures { IfOk result (λ made. made.items ≡ cut_out_of start length origin cuts.now) }
{
    let end = u64::from(start) + u64::from(length);
    let first = front_len(end, cuts);
    let (front, behind) = cuts.split_at(first);
    let mut made = Vec::new(alloc);
    made.extend_from_slice(front)?;
    made.push(Cut {
        place: start,
        origin,
    })?;
    for cut in behind {
        made.push(moved(length, cut))?;
    }
    Ok(made)
}

/// How many cuts are in front of a place.
fn front_len(place: u64, cuts: &[Cut]) -> usize
    ensures length { result ≡ prefix_len (is_before_place place) cuts.now }
    ensures within { result ≤ length cuts.now }
{
    cuts.iter().take_while(|cut| is_before(place, cut)).count()
}

/// Whether it is in front of a place.
fn is_before(place: u64, cut: &Cut) -> bool
    ensures { result ≡ is_before_place place cut.now }
{
    u64::from(cut.place) < place
}

/// So many places further in front.
fn moved(length: u32, cut: &Cut) -> Cut
    ensures { result ≡ moved_by length cut.now }
{
    Cut {
        place: cut.place.saturating_sub(length),
        origin: cut.origin,
    }
}
