//! Numbers and names that stand alone in a right side.
ghost use Rattle.std.specs.Prelude.{◌≡◌, OnOk, OnErr};
ghost use Rattle.form_right_side.specs.Marks.{stands_in};
ghost use Rattle.form_right_side.specs.Refusal.{Gives};
ghost use Rattle.form_right_side.specs.RightSide.{number as number_of, name as name_of, spelled_of, by_kind, symbol as symbol_of, size_alone as size_alone_of, number_base as number_base_of, name_base as name_base_of, base_alone, base_by_kind};
ghost use Rattle.form_right_side.specs.Walking as walking;
ghost use Rattle.form_right_side.specs.Walking.{walk_of, AreKept, adds, may_name, with_factor};
ghost use Rattle.form_tree.specs.Tree as tree;

use crate::CheckError;
use crate::ahead::power_at;
use crate::kinds::{found, wrong_name};
use crate::known::Known;
use crate::powers::{
    LARGEST_EXPONENT, LARGEST_NUMBER, LARGEST_POWER, Power, exponent, is_inverted, is_over,
    link_of, number_exponent, size_of, within,
};
use crate::raised::{exponent_of, name_power, symbol_base, symbol_named};
use crate::resolved::Found;
use crate::standing::Standing;
use crate::walk::{Walk, put};
use form_ast::{Link, Named, Sign};
use form_base::Id;
use form_names::{Kind, Names};
use form_number::Number;
use form_tree::{Base, Natural, Piece};
use std::alloc::{AllocError, Global};

impl Walk {
    /// A whole number.
    pub fn number(
        &mut self,
        alloc: Global,
        names: &Names,
        link: Link,
        number: &Number,
        rest: &[form_ast::Piece],
    ) -> Result<(), CheckError>
        ensures gives { Gives (λ _. walk_of self.new) result (adds (walk_of self.old) link (walking.by_power names.now (walking.is_over link) rest.now (number_base_of number.now) (number_of (walking.is_over link) number.now (walking.power_at rest.now)))) }
        ensures calls { OnOk result (self.new.calls ≡ self.old.calls) }
        ensures unchanged { OnErr result (walk_of self.new ≡ walk_of self.old) }
    {
        let Some((sign, by)) = name_power(rest) else {
            return self.number_to(link, number, power_at(rest));
        };
        let value = within(number, LARGEST_NUMBER)?;
        let base = Base::Number(Natural::new(value));
        self.raise(alloc, names, link, base, sign, by)
    }

    /// A whole number to a power that is a number.
    fn number_to(
        &mut self,
        link: Link,
        number: &Number,
        power: Option<Power>,
    ) -> Result<(), CheckError>
        ensures gives { Gives (λ _. walk_of self.new) result (adds (walk_of self.old) link (number_of (walking.is_over link) number.now power)) }
        ensures calls { OnOk result (self.new.calls ≡ self.old.calls) }
        ensures unchanged { OnErr result (walk_of self.new ≡ walk_of self.old) }
    {
        let value = within(number, LARGEST_NUMBER)?;
        let size = size_of(power, LARGEST_POWER)?;
        self.add(Piece::Number {
            link: link_of(link),
            value: Natural::new(value),
            power: number_exponent(value, is_over(link), power, size),
        })?;
        Ok(())
    }

    fn symbol(
        &mut self,
        known: &Known,
        link: Link,
        symbol: Id,
        power: Option<Power>,
    ) -> Result<(), CheckError>
        ensures gives { Gives (λ _. walk_of self.new) result (adds (walk_of self.old) link (symbol_of known.now (walking.is_over link) symbol power)) }
        ensures calls { OnOk result (self.new.calls ≡ self.old.calls) }
        ensures unchanged { OnErr result (walk_of self.new ≡ walk_of self.old) }
    {
        let size = size_of(power, LARGEST_EXPONENT)?;
        let link_here = link_of(link);
        if known.is_wildcard(symbol) {
            self.add(Piece::Wild {
                link: link_here,
                symbol,
                is_over: is_over(link),
                power: exponent(false, power, size),
            })?;
            return Ok(());
        }
        self.add(Piece::Symbol {
            link: link_here,
            symbol,
            power: exponent(is_over(link), power, size),
        })?;
        Ok(())
    }

    /// What isn't inverted: the size of its power.
    fn size_alone(
        &self,
        alloc: Global,
        link: Link,
        named: &Named,
        power: Option<Power>,
    ) -> Result<u32, CheckError>
        ensures { Gives (λ size. size) result (size_alone_of (walking.is_over link) power (spelled_of named.now)) }
    {
        if is_inverted(is_over(link), power) {
            return Err(wrong_name(alloc, named)?);
        }
        Ok(size_of(power, LARGEST_POWER)?)
    }

    /// A function without arguments.
    #[tactic(auto, using(crate::proofs::Kept::kept_same, crate::proofs::Kept::kept_behind))]
    fn function(
        &mut self,
        link: Link,
        function: Id,
        is_commuting: bool,
        size: u32,
    ) -> Result<(), AllocError>
        ensures made { OnOk result (walk_of self.new ≡ with_factor (walk_of self.old) link (tree.function function is_commuting tree.empty size)) }
        ensures calls { OnOk result (self.new.calls ≡ self.old.calls) }
        ensures kept { OnErr result (AreKept (walk_of self.old) (walk_of self.new)) }
    {
        put(
            &mut self.pieces,
            Piece::Function {
                link: link_of(link),
                function,
                is_commuting,
            },
        )?;
        self.add(Piece::EndOfFunction { power: size })
    }

    /// A name alone.
    #[tactic(auto, using(crate::proofs::Kept::kept_same, crate::proofs::Kept::kept_behind))]
    pub fn name(
        &mut self,
        alloc: Global,
        names: &Names,
        standing: &Standing,
        known: &Known,
        link: Link,
        named: &Named,
        rest: &[form_ast::Piece],
    ) -> Result<(), CheckError>
        ensures gives { Gives (λ _. walk_of self.new) result (adds (walk_of self.old) link (walking.by_power names.now (walking.is_over link) rest.now (name_base_of names.now known.now (walking.is_over link) named.now) (name_of names.now (may_name self.old.calls (stands_in standing.now)) known.now (walking.is_over link) named.now (walking.power_at rest.now)))) }
        ensures calls { OnOk result (self.new.calls ≡ self.old.calls) }
        ensures kept { OnErr result (AreKept (walk_of self.old) (walk_of self.new)) }
    {
        match name_power(rest) {
            Some((sign, by)) => self.raise_name(alloc, names, known, link, named, sign, by),
            None => self.name_to(alloc, names, standing, known, link, named, power_at(rest)),
        }
    }

    /// A name alone, to a power that is a number.
    #[tactic(auto, using(crate::proofs::Kept::kept_same, crate::proofs::Kept::kept_behind))]
    fn name_to(
        &mut self,
        alloc: Global,
        names: &Names,
        standing: &Standing,
        known: &Known,
        link: Link,
        named: &Named,
        power: Option<Power>,
    ) -> Result<(), CheckError>
        ensures gives { Gives (λ _. walk_of self.new) result (adds (walk_of self.old) link (name_of names.now (may_name self.old.calls (stands_in standing.now)) known.now (walking.is_over link) named.now power)) }
        ensures calls { OnOk result (self.new.calls ≡ self.old.calls) }
        ensures kept { OnErr result (AreKept (walk_of self.old) (walk_of self.new)) }
    {
        let Named::Declared(spelled) = named else {
            let power = self.size_alone(alloc, link, named, power)?;
            self.add(Piece::Imaginary {
                link: link_of(link),
                power,
            })?;
            return Ok(());
        };
        let found = found(alloc, names, spelled)?;
        self.declared(alloc, standing, known, link, named, power, found)
    }

    /// A declared name alone.
    #[tactic(auto, using(crate::proofs::Kept::kept_same, crate::proofs::Kept::kept_behind))]
    fn declared(
        &mut self,
        alloc: Global,
        standing: &Standing,
        known: &Known,
        link: Link,
        named: &Named,
        power: Option<Power>,
        found: Found,
    ) -> Result<(), CheckError>
        ensures gives { Gives (λ _. walk_of self.new) result (adds (walk_of self.old) link (by_kind (may_name self.old.calls (stands_in standing.now)) known.now (walking.is_over link) (spelled_of named.now) power found.id found.kind)) }
        ensures calls { OnOk result (self.new.calls ≡ self.old.calls) }
        ensures kept { OnErr result (AreKept (walk_of self.old) (walk_of self.new)) }
    {
        match found.kind {
            Kind::Symbol => self.symbol(known, link, found.id, power),
            Kind::Function => {
                let size = self.size_alone(alloc, link, named, power)?;
                self.function(link, found.id, false, size)?;
                Ok(())
            }
            Kind::CommutingFunction => {
                let size = self.size_alone(alloc, link, named, power)?;
                self.function(link, found.id, true, size)?;
                Ok(())
            }
            Kind::Expression if self.calls == 0 && standing.stands(found.id) => {
                let power = self.size_alone(alloc, link, named, power)?;
                self.add(Piece::Stored {
                    link: link_of(link),
                    expression: found.id,
                    power,
                })?;
                Ok(())
            }
            Kind::Vector | Kind::Index(_) | Kind::Expression | Kind::Set => {
                Err(wrong_name(alloc, named)?)
            }
        }
    }

    /// A function without arguments, to a power that is a name.
    #[tactic(auto, using(crate::proofs::Kept::kept_same, crate::proofs::Kept::kept_behind))]
    fn raise_function(
        &mut self,
        alloc: Global,
        names: &Names,
        link: Link,
        named: &Named,
        function: Id,
        is_commuting: bool,
        sign: Option<Sign>,
        by: &Named,
    ) -> Result<(), CheckError>
        ensures gives { Gives (λ _. walk_of self.new) result (adds (walk_of self.old) link (walking.raised names.now (walking.is_over link) (sign, by.now) (base_alone (walking.is_over link) (spelled_of named.now) (tree.function_base function is_commuting tree.empty)))) }
        ensures calls { OnOk result (self.new.calls ≡ self.old.calls) }
        ensures kept { OnErr result (AreKept (walk_of self.old) (walk_of self.new)) }
    {
        if is_over(link) {
            return Err(wrong_name(alloc, named)?);
        }
        let symbol = symbol_named(alloc, names, by)?;
        let exponent = exponent_of(is_over(link), sign, symbol);
        put(
            &mut self.pieces,
            Piece::Function {
                link: link_of(link),
                function,
                is_commuting,
            },
        )?;
        self.add(Piece::EndOfRaisedFunction(exponent))?;
        Ok(())
    }

    /// `i_` to a power that is a name.
    fn raise_imaginary(
        &mut self,
        alloc: Global,
        names: &Names,
        link: Link,
        named: &Named,
        sign: Option<Sign>,
        by: &Named,
    ) -> Result<(), CheckError>
        ensures gives { Gives (λ _. walk_of self.new) result (adds (walk_of self.old) link (walking.raised names.now (walking.is_over link) (sign, by.now) (base_alone (walking.is_over link) (spelled_of named.now) tree.imaginary_base))) }
        ensures calls { OnOk result (self.new.calls ≡ self.old.calls) }
        ensures unchanged { OnErr result (walk_of self.new ≡ walk_of self.old) }
    {
        if is_over(link) {
            return Err(wrong_name(alloc, named)?);
        }
        self.raise(alloc, names, link, Base::Imaginary, sign, by)
    }

    /// A name alone, to a power that is a name.
    #[tactic(auto, using(crate::proofs::Kept::kept_same, crate::proofs::Kept::kept_behind))]
    fn raise_name(
        &mut self,
        alloc: Global,
        names: &Names,
        known: &Known,
        link: Link,
        named: &Named,
        sign: Option<Sign>,
        by: &Named,
    ) -> Result<(), CheckError>
        ensures gives { Gives (λ _. walk_of self.new) result (adds (walk_of self.old) link (walking.raised names.now (walking.is_over link) (sign, by.now) (name_base_of names.now known.now (walking.is_over link) named.now))) }
        ensures calls { OnOk result (self.new.calls ≡ self.old.calls) }
        ensures kept { OnErr result (AreKept (walk_of self.old) (walk_of self.new)) }
    {
        let Named::Declared(spelled) = named else {
            return self.raise_imaginary(alloc, names, link, named, sign, by);
        };
        let found = found(alloc, names, spelled)?;
        self.raise_declared(alloc, names, known, link, named, found, sign, by)
    }

    /// A declared name alone, to a power that is a name.
    #[tactic(auto, using(crate::proofs::Kept::kept_same, crate::proofs::Kept::kept_behind))]
    fn raise_declared(
        &mut self,
        alloc: Global,
        names: &Names,
        known: &Known,
        link: Link,
        named: &Named,
        found: Found,
        sign: Option<Sign>,
        by: &Named,
    ) -> Result<(), CheckError>
        ensures gives { Gives (λ _. walk_of self.new) result (adds (walk_of self.old) link (walking.raised names.now (walking.is_over link) (sign, by.now) (base_by_kind known.now (walking.is_over link) (spelled_of named.now) found.id found.kind))) }
        ensures calls { OnOk result (self.new.calls ≡ self.old.calls) }
        ensures kept { OnErr result (AreKept (walk_of self.old) (walk_of self.new)) }
    {
        match found.kind {
            Kind::Symbol => {
                let base = symbol_base(known, found.id);
                self.raise(alloc, names, link, base, sign, by)
            }
            Kind::Function => {
                self.raise_function(alloc, names, link, named, found.id, false, sign, by)
            }
            Kind::CommutingFunction => {
                self.raise_function(alloc, names, link, named, found.id, true, sign, by)
            }
            Kind::Vector | Kind::Index(_) | Kind::Expression | Kind::Set => {
                Err(wrong_name(alloc, named)?)
            }
        }
    }
}
