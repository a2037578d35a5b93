ghost use Rattle.std.specs.Prelude.{◌≡◌, ◌<◌, ◌-◌, ◌^◌, ◌++◌, [], ◌∷◌, None, Some, Err, IfOk, IfSome, OnOk, OnErr, length, option_copied};
ghost use Rattle.form_names.specs.Letters.{noted};
ghost use Rattle.form_names.specs.Names.{lookup, kind_at, dimension_of, dimension_at, elements_at, name_at, declare, declare_set, has_elements, entry_of, IsKind, IsDimension, AreElements, IsLawful};
ghost use Rattle.form_names.specs.Restriction.{restriction_at};

use crate::{Dimension, Elements, Facts, Kind, Restriction};
use form_base::{Id, Name};
use indexmap::IndexMap;
use std::alloc::{AllocError, Global};
use std::marker::Model;

/// The least exponent that any symbol may have, and the most.
const LEAST_EXPONENT: i32 = -1_000_000_000;

const MOST_EXPONENT: i32 = 1_000_000_000;

/// Why a name wasn't declared.
#[derive(Drop)]
pub enum DeclareError {
    /// It stands with another kind.
    Redeclared,
    Memory,
}

impl From<AllocError> for DeclareError {
    ghost use Rattle.std.specs.Prelude.{◌≡◌};
    ghost use Rattle.form_names.specs.declared.names.DeclareError.TheVariants.{Memory};

    ghost from_gives = { λ _ error. error ≡ Memory };

    fn from(_: AllocError) -> Self {
        DeclareError::Memory
    }
}

/// The names of a program: a list in order of declaration, in which an `Id` is a position.
#[derive(Drop)]
pub struct Names {
    alloc: Global,
    facts: IndexMap<String, Facts>,
    /// Those of one letter, which are looked up most: their positions, each with 1 added, and 0 where none stands.
    letters: [u32; 256],
}

impl Model for Names {
    ghost use Rattle.std.specs.Prelude.{◌≡◌, ◌<◌, ◌^◌, List, length};
    ghost use Rattle.form_names.specs.Letters.{IsTable};
    ghost use Rattle.form_names.specs.Names.{Entry, entries_of, AreLawful};

    ghost Value = { List Entry };

    ghost view = { λ names. entries_of names.facts.entries };

    ghost invariant = { λ names. (length (entries_of names.facts.entries) < 2 ^ 32) × AreLawful (entries_of names.facts.entries) × (length names.letters ≡ 256) × IsTable names.letters (entries_of names.facts.entries) };
}

impl Names {
    pub fn new(alloc: Global) -> Names
        ensures { result ≡ [] }
    {
        Names {
            alloc,
            facts: IndexMap::new(alloc),
            letters: [0; 256],
        }
    }

    /// How many names stand.
    pub fn len(&self) -> u32
        ensures { result ≡ length self.now }
    {
        self.facts.len() as u32
    }

    /// Declares a name. One that stands with this kind keeps its `Id`, and any other one goes last. Where this is
    /// refused, and where memory is wanting, all stays as it was. The dimension of an index is a number up to 1,000, or
    /// a symbol that stands.
    pub fn declare(&mut self, name: Name, kind: Kind) -> Result<Id, DeclareError>
        requires room { length self.old < 2 ^ 32 - 1 }
        requires lawful { IsKind self.old kind }
        ensures declared { IfOk result (λ id. declare self.old name kind ≡ Some (id, self.new)) }
        ensures redeclared { result ≡ Err DeclareError.Redeclared → declare self.old name kind ≡ None }
        ensures unchanged { OnErr result (self.new ≡ self.old) }
        ensures memory { result ≡ Err DeclareError.Memory → lookup self.old name ≡ None }
    {
        match self.lookup(name.as_str()) {
            Some(id) if self.kind(id) == kind => Ok(id),
            Some(_) => Err(DeclareError::Redeclared),
            None => {
                let elements = None;
                Ok(self.push(name, Facts { kind, elements })?)
            }
        }
    }

    /// Declares a set. One that stands with these elements keeps its `Id`, and a new name goes last. Where this is
    /// refused, and where memory is wanting, all stays as it was.
    pub fn declare_set(&mut self, name: Name, elements: Elements) -> Result<Id, DeclareError>
        requires room { length self.old < 2 ^ 32 - 1 }
        requires lawful { AreElements self.old elements }
        ensures declared { IfOk result (λ id. declare_set self.old name elements ≡ Some (id, self.new)) }
        ensures redeclared { result ≡ Err DeclareError.Redeclared → declare_set self.old name elements ≡ None }
        ensures unchanged { OnErr result (self.new ≡ self.old) }
        ensures memory { result ≡ Err DeclareError.Memory → lookup self.old name ≡ None }
    {
        match self.lookup(name.as_str()) {
            Some(id) if self.is_set_of(id, &elements) => Ok(id),
            Some(_) => Err(DeclareError::Redeclared),
            None => {
                let kind = Kind::Set;
                let elements = Some(elements);
                Ok(self.push(name, Facts { kind, elements })?)
            }
        }
    }

    /// Whether the name is a set of these elements.
    fn is_set_of(&self, id: Id, elements: &Elements) -> bool
        requires { id < length self.now }
        ensures { result ≡ has_elements (elements_at self.now id) elements.now }
    {
        match self.elements(id) {
            Some(other) => other.is_same(elements),
            None => false,
        }
    }

    /// Puts a new name last.
    fn push(&mut self, name: Name, facts: Facts) -> Result<Id, AllocError>
        requires new { lookup self.old name ≡ None }
        requires room { length self.old < 2 ^ 32 - 1 }
        requires lawful { IsLawful self.old (entry_of name facts) }
        ensures id { IfOk result (λ id. id ≡ length self.old) }
        ensures last { OnOk result (self.new ≡ self.old ++ entry_of name facts ∷ []) }
        ensures unchanged { OnErr result (self.new ≡ self.old) }
    {
        let text = String::from_str(self.alloc, name.as_str())?;
        let (position, _) = self.facts.insert_full(text, facts)?;
        note(
            &mut self.letters,
            name.as_str().as_bytes(),
            position as u32 + 1,
        );
        Ok(Id::new(position as u32))
    }

    /// The first position at which the name stands.
    #[inline]
    pub fn lookup(&self, name: &str) -> Option<Id>
        ensures found { result ≡ lookup self.now name.now }
        ensures within { IfSome result (λ id. id < length self.now) }
    {
        match name.as_bytes() {
            [letter] => self.letter(*letter),
            _ => self.stored(name),
        }
    }

    /// That of a name of one letter.
    fn letter(&self, letter: u8) -> Option<Id>
        ensures found { result ≡ lookup self.now (letter ∷ []) }
        ensures within { IfSome result (λ id. id < length self.now) }
    {
        let number = self.letters[usize::from(letter)];
        if number == 0 {
            return None;
        }
        Some(Id::new(number - 1))
    }

    /// That of any name.
    #[inline(never)]
    fn stored(&self, name: &str) -> Option<Id>
        ensures found { result ≡ lookup self.now name.now }
        ensures within { IfSome result (λ id. id < length self.now) }
    {
        let position = self.facts.get_index_of(name)?;
        Some(Id::new(position as u32))
    }

    pub fn kind(&self, id: Id) -> Kind
        requires { id < length self.now }
        ensures stands { kind_at self.now id ≡ Some result }
        ensures lawful { IfSome (dimension_of result) (IsDimension self.now) }
    {
        self.facts[id.position() as usize].kind
    }

    /// The elements of a set, none for another name.
    pub fn elements(&self, id: Id) -> Option<&Elements>
        requires { id < length self.now }
        ensures stands { option_copied result ≡ elements_at self.now id }
        ensures lawful { IfSome (elements_at self.now id) (AreElements self.now) }
    {
        self.facts[id.position() as usize].elements.as_ref()
    }

    /// The dimension of an index, none for another name.
    pub fn dimension(&self, id: Id) -> Option<Dimension>
        requires { id < length self.now }
        ensures stands { result ≡ dimension_at self.now id }
        ensures lawful { IfSome result (IsDimension self.now) }
    {
        match self.kind(id) {
            Kind::Index(dimension) => Some(dimension),
            _ => None,
        }
    }

    /// The exponents that a symbol may have, none for another name.
    pub fn restriction(&self, id: Id) -> Option<Restriction>
        requires { id < length self.now }
        ensures { result ≡ restriction_at self.now id }
    {
        match self.kind(id) {
            Kind::Symbol => Some(Restriction {
                least: LEAST_EXPONENT,
                most: MOST_EXPONENT,
            }),
            _ => None,
        }
    }

    pub fn name(&self, id: Id) -> &str
        requires { id < length self.now }
        ensures { name_at self.now id ≡ Some result.now }
    {
        let (name, _) = self.facts.get_index(id.position() as usize).unwrap();
        name.as_str()
    }
}

/// Notes the number of a name in a table of those of one letter, where it is one.
fn note(letters: &mut [u32; 256], name: &[u8], number: u32)
    ensures { letters.new ≡ noted letters.old name.now number }
{
    match name {
        [letter] => letters[usize::from(*letter)] = number,
        _ => {}
    }
}
