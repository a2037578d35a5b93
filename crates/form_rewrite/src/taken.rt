ghost use Rattle.std.specs.Prelude.{◌≡◌, ◌∷◌, ◌++◌, [], IfOk, OnErr, OnOk, length};
ghost use Rattle.form_rewrite.specs.Takes.{taken_in};
ghost use Rattle.form_rewrite.specs.Taking.{taken_so_far};

use form_bindings::Bindings;
use form_term::Term;
use std::alloc::{AllocError, Global};
use std::marker::Model;

/// Why the word of a term is cut at a place.
#[derive(Clone, Copy)]
pub enum Origin {
    /// It was cut there before: by its number among those places.
    Given(usize),
    /// A match took a stretch out: by its number among the matches.
    TakenBy(usize),
}

/// A place in the word that is left, in front of so many of its functions.
#[derive(Clone, Copy)]
pub struct Cut {
    pub place: u32,
    pub origin: Origin,
}

/// Places in a word, from the left: in a clause their list.
#[derive(Drop)]
pub struct Cuts {
    cuts: Vec<Cut>,
}

impl Model for Cuts {
    ghost use Rattle.std.specs.Prelude.{List};
    ghost use Rattle.form_rewrite.specs.declared.taken.Cut.{Cut};

    ghost Value = { List Cut };

    ghost view = { λ c. c.cuts.items };
}

impl Cuts {
    pub fn from_vec(cuts: Vec<Cut>) -> Cuts
        ensures { result ≡ cuts.items }
    {
        Cuts { cuts }
    }

    pub fn as_slice(&self) -> &[Cut]
        ensures { result.now ≡ self.now }
    {
        self.cuts.as_slice()
    }

    pub fn into_vec(self) -> Vec<Cut>
        ensures { result.items ≡ self }
    {
        let Cuts { cuts } = self;
        cuts
    }
}

/// What the wildcards of each match stand for, match by match: in a clause the list of these.
#[derive(Drop)]
pub struct Matches {
    matches: Vec<Bindings>,
}

impl Model for Matches {
    ghost use Rattle.std.specs.Prelude.{List};
    ghost use Rattle.form_bindings.specs.Values.{Binding};

    ghost Value = { List (List Binding) };

    ghost view = { λ m. m.matches.items };
}

impl Matches {
    pub fn new(alloc: Global) -> Matches
        ensures { result ≡ [] }
    {
        Matches {
            matches: Vec::new(alloc),
        }
    }

    pub fn push(&mut self, bindings: Bindings) -> Result<(), AllocError>
        ensures put { OnOk result (self.new ≡ self.old ++ bindings ∷ []) }
        ensures unchanged { OnErr result (self.new ≡ self.old) }
    {
        self.matches.push(bindings)?;
        Ok(())
    }

    pub fn len(&self) -> usize
        ensures { result ≡ length self.now }
    {
        self.matches.len()
    }

    pub fn as_slice(&self) -> &[Bindings]
        ensures { result.now ≡ self.now }
    {
        self.matches.as_slice()
    }

    pub fn into_vec(self) -> Vec<Bindings>
        ensures { result.items ≡ self }
    {
        let Matches { matches } = self;
        matches
    }
}

/// What a pattern took out of a term.
#[derive(Drop)]
pub struct Taken {
    /// What is left.
    pub left: Term,
    /// Where its word is cut.
    pub cuts: Cuts,
    pub matches: Matches,
    /// How many times each match was taken.
    pub times: u32,
}

/// What comes of it where a pattern is tried on a term: in a clause `taken_in` says what was taken.
#[derive(Drop)]
pub enum Take {
    /// The pattern doesn't match: the term as it was.
    Untaken(Term),
    /// One match, taken once, and no word is cut.
    Single(Single),
    Several(Taken),
}

impl Take {
    /// What was taken, none where the pattern doesn't match.
    pub fn into_taken(self, alloc: Global) -> Result<Option<Taken>, AllocError>
        ensures { IfOk result (λ taken. taken ≡ taken_in self) }
    {
        match self {
            Take::Untaken(_) => Ok(None),
            Take::Single(single) => {
                let taken = single.into_taken(alloc)?;
                Ok(Some(taken))
            }
            Take::Several(taken) => Ok(Some(taken)),
        }
    }
}

/// What is left of a term, and what the wildcards of the one match stand for.
#[derive(Drop)]
pub struct Single {
    pub left: Term,
    pub bindings: Bindings,
}

impl Single {
    /// The same as what was taken.
    pub fn into_taken(self, alloc: Global) -> Result<Taken, AllocError>
        ensures { IfOk result (λ taken. taken ≡ taken_so_far self.left [] (self.bindings ∷ []) 1) }
    {
        let Single { left, bindings } = self;
        let mut matches = Matches::new(alloc);
        matches.push(bindings)?;
        Ok(Taken {
            left,
            cuts: Cuts::from_vec(Vec::new(alloc)),
            matches,
            times: 1,
        })
    }
}
