//! Canonical types with more qualifiers. Those of an array go to its elements, level by level; each level
//! that was qualified once is kept, so that it isn't gone through again.

ghost use Rattle.std.specs.Prelude.{◌≡◌, ◌≢◌, ◌<◌, ℕ, List, Option, length, [], IfOk, OnOk, IfErr, IfSome, IfNone, false, true};
ghost use Rattle.c_types.specs.Arrays.{is_array, element, with_element, IsPath, IsRaised};
ghost use Rattle.c_types.specs.CTypes as c;
ghost use Rattle.c_types.specs.CTypes.{CType};
ghost use Rattle.c_types.specs.Canonical.{canonical, qualify};
ghost use Rattle.c_types.specs.Facts.{IsFact};
ghost use Rattle.c_types.specs.Roots.{IsRoot, IsRootTerm, AreRoots};
ghost use Rattle.c_types.specs.Table.{type_at, IsLonger};
ghost use Rattle.c_types.specs.declared.records.Layout.{Layout};
ghost use Rattle.c_types.specs.declared.terms.Term.TheVariants as term;
ghost use Rattle.c_types.specs.declared.terms.TypeEnd.TheVariants as end;

use super::TypeTable;
use crate::facts::Facts;
use crate::keys::key_of;
use crate::terms::{Term, TypeEnd, TypeId};
use tok_base::NoMemory;

impl TypeTable {
    pub(super) fn canonical_qualified(
        &mut self,
        qualifiers: u8,
        inner: TypeId,
    ) -> Result<TypeId, TypeEnd>
        requires inner { inner.0 < length self.old.terms }
        requires small { qualifiers < 8 }
        ensures is { IfOk result (λ id. type_at self.new.terms id.0 ≡ qualify qualifiers (canonical (type_at self.old.terms inner.0))) }
        ensures root { IfOk result (λ id. IsRoot self.new.terms id.0) }
        ensures longer { IsLonger self.old self.new }
        ensures cause { IfErr result (λ e. e ≡ end.NoMemory) }
    {
        let root = self.root(inner);
        let mut levels = Vec::new(self.alloc);
        let stop = self.descend(qualifiers, root, &mut levels)?;
        let made = self.known_or_made(qualifiers, stop.0, stop.1)?;
        let id = self.ascend(qualifiers, root, made, levels)?;
        Ok(id)
    }

    /// Goes from an array to its elements, to those of these, and so on, as far as no level is known with
    /// the qualifiers, and notes the arrays on the way.
    fn descend(
        &self,
        qualifiers: u8,
        root: TypeId,
        levels: &mut Vec<TypeId>,
    ) -> Result<(TypeId, Option<TypeId>), NoMemory>
        requires root { IsRoot self.now.terms root.0 }
        requires empty { levels.old.items ≡ [] }
        ensures root { IfOk result (λ r. IsRoot self.now.terms r.0.0) }
        ensures known { IfOk result (λ r. IfSome r.1 (λ made. IsRoot self.now.terms made.0 × (type_at self.now.terms made.0 ≡ qualify qualifiers (type_at self.now.terms r.0.0)))) }
        ensures bottom { IfOk result (λ r. IfNone r.1 (is_array (type_at self.now.terms r.0.0) ≡ false)) }
        ensures path { IfOk result (λ r. IsPath self.now.terms (type_at self.now.terms root.0) levels.new.items (type_at self.now.terms r.0.0)) }
        ensures roots { OnOk result (AreRoots self.now.terms levels.new.items) }
    {
        let mut at = root;
        while let Some(element) = self.element(at) {
            let known = match self.known(qualifiers, at) {
                Ok(known) => known,
                Err(end) => return Err(end),
            };
            if known.is_some() {
                return Ok((at, known));
            }
            if levels.push(at).is_err() {
                return Err(NoMemory);
            }
            at = element;
        }
        Ok((at, None))
    }

    /// A canonical type with these qualifiers, where it was made before.
    fn known(&self, qualifiers: u8, root: TypeId) -> Result<Option<TypeId>, NoMemory>
        requires { IsRoot self.now.terms root.0 }
        ensures root { IfOk result (λ o. IfSome o (λ made. IsRoot self.now.terms made.0)) }
        ensures is { IfOk result (λ o. IfSome o (λ made. type_at self.now.terms made.0 ≡ qualify qualifiers (type_at self.now.terms root.0))) }
    {
        let own = key_of(self.alloc, &Term::Qualified(qualifiers, root))?;
        let found = self.find(own.as_slice())?;
        match found {
            None => Ok(None),
            Some(id) => Ok(Some(self.root(id))),
        }
    }

    /// A canonical type with more qualifiers: the known one, or that of a type that is no array.
    fn known_or_made(
        &mut self,
        qualifiers: u8,
        at: TypeId,
        known: Option<TypeId>,
    ) -> Result<TypeId, NoMemory>
        requires root { IsRoot self.old.terms at.0 }
        requires known { IfSome known (λ made. IsRoot self.old.terms made.0 × (type_at self.old.terms made.0 ≡ qualify qualifiers (type_at self.old.terms at.0))) }
        requires bottom { IfNone known (is_array (type_at self.old.terms at.0) ≡ false) }
        requires small { qualifiers < 8 }
        ensures is { IfOk result (λ made. type_at self.new.terms made.0 ≡ qualify qualifiers (type_at self.old.terms at.0)) }
        ensures root { IfOk result (λ made. IsRoot self.new.terms made.0) }
        ensures longer { IsLonger self.old self.new }
    {
        match known {
            Some(made) => Ok(made),
            None => self.qualified(qualifiers, at),
        }
    }

    fn element(&self, id: TypeId) -> Option<TypeId>
        requires { IsRoot self.now.terms id.0 }
        ensures root { IfSome result (λ x. IsRoot self.now.terms x.0) }
        ensures below { IfSome result (λ x. x.0 < id.0) }
        ensures array { IfSome result (λ x. (is_array (type_at self.now.terms id.0) ≡ true) × (type_at self.now.terms x.0 ≡ element (type_at self.now.terms id.0))) }
        ensures bottom { IfNone result (is_array (type_at self.now.terms id.0) ≡ false) }
    {
        match self.root_term(id) {
            Term::Array(element, _) => Some(*element),
            Term::Flexible(element) => Some(*element),
            _ => None,
        }
    }

    /// A canonical type that is no array, with more qualifiers.
    fn qualified(&mut self, qualifiers: u8, id: TypeId) -> Result<TypeId, NoMemory>
        requires root { IsRoot self.old.terms id.0 }
        requires bottom { is_array (type_at self.old.terms id.0) ≡ false }
        requires small { qualifiers < 8 }
        ensures is { IfOk result (λ made. type_at self.new.terms made.0 ≡ qualify qualifiers (type_at self.old.terms id.0)) }
        ensures root { IfOk result (λ made. IsRoot self.new.terms made.0) }
        ensures longer { IsLonger self.old self.new }
    {
        match self.root_term(id) {
            Term::Qualified(present, inner) => {
                let both = qualifiers | *present;
                let inner = *inner;
                self.with_qualifiers(both, inner)
            }
            _ => {
                if qualifiers == 0 {
                    return Ok(id);
                }
                self.with_qualifiers(qualifiers, id)
            }
        }
    }

    fn with_qualifiers(&mut self, qualifiers: u8, inner: TypeId) -> Result<TypeId, NoMemory>
        requires roots { IsRootTerm self.old.terms (term.Qualified qualifiers inner) }
        requires small { qualifiers < 8 }
        ensures is { IfOk result (λ made. type_at self.new.terms made.0 ≡ c.Qualified qualifiers (type_at self.old.terms inner.0)) }
        ensures root { IfOk result (λ made. IsRoot self.new.terms made.0) }
        ensures longer { IsLonger self.old self.new }
    {
        let fact = self.qualified_fact(qualifiers, inner);
        self.intern(Term::Qualified(qualifiers, inner), fact)
    }

    /// Makes the arrays that were noted again, of other elements.
    fn ascend(
        &mut self,
        qualifiers: u8,
        root: TypeId,
        bottom: TypeId,
        levels: Vec<TypeId>,
    ) -> Result<TypeId, NoMemory>
        requires small { qualifiers < 8 }
        requires root { root.0 < length self.old.terms }
        requires bottom { IsRoot self.old.terms bottom.0 }
        requires levels { AreRoots self.old.terms levels.items }
        requires raised { IsRaised self.old.terms qualifiers (type_at self.old.terms root.0) levels.items (type_at self.old.terms bottom.0) }
        ensures is { IfOk result (λ made. type_at self.new.terms made.0 ≡ qualify qualifiers (type_at self.old.terms root.0)) }
        ensures root { IfOk result (λ made. IsRoot self.new.terms made.0) }
        ensures longer { IsLonger self.old self.new }
    {
        let mut levels = levels;
        let mut made = bottom;
        while let Some(level) = levels.pop() {
            made = self.array_with(qualifiers, level, made)?;
        }
        Ok(made)
    }

    /// An array with more qualifiers, where its elements with them are made; it is known from then on.
    fn array_with(
        &mut self,
        qualifiers: u8,
        array: TypeId,
        elements: TypeId,
    ) -> Result<TypeId, NoMemory>
        requires small { qualifiers < 8 }
        requires array { IsRoot self.old.terms array.0 }
        requires is_array { is_array (type_at self.old.terms array.0) ≡ true }
        requires elements { IsRoot self.old.terms elements.0 }
        requires raised { type_at self.old.terms elements.0 ≡ qualify qualifiers (element (type_at self.old.terms array.0)) }
        ensures is { IfOk result (λ made. type_at self.new.terms made.0 ≡ qualify qualifiers (type_at self.old.terms array.0)) }
        ensures root { IfOk result (λ made. IsRoot self.new.terms made.0) }
        ensures longer { IsLonger self.old self.new }
    {
        let made = self.array_of(qualifiers, array, elements)?;
        let term = Term::Qualified(qualifiers, array);
        let own = key_of(self.alloc, &term)?;
        let fact = self.qualified_fact(qualifiers, array);
        self.put_behind(term, own, fact, made)?;
        Ok(made)
    }

    fn array_of(
        &mut self,
        qualifiers: u8,
        array: TypeId,
        elements: TypeId,
    ) -> Result<TypeId, NoMemory>
        requires array { array.0 < length self.old.terms }
        requires is_array { is_array (type_at self.old.terms array.0) ≡ true }
        requires elements { IsRoot self.old.terms elements.0 }
        requires raised { type_at self.old.terms elements.0 ≡ qualify qualifiers (element (type_at self.old.terms array.0)) }
        ensures is { IfOk result (λ made. type_at self.new.terms made.0 ≡ qualify qualifiers (type_at self.old.terms array.0)) }
        ensures root { IfOk result (λ made. IsRoot self.new.terms made.0) }
        ensures longer { IsLonger self.old self.new }
    {
        let fact = const_as(self.fact(array), self.fact(elements));
        match self.term(array) {
            Term::Array(_, count) => {
                let count = *count;
                self.intern(Term::Array(elements, count), fact)
            }
            Term::Flexible(_) => self.intern(Term::Flexible(elements), fact),
            _ => unreachable!(),
        }
    }
}

/// The facts of an array that has other elements, which differ in qualifiers alone.
fn const_as(fact: Facts, elements: Facts) -> Facts
    ensures { (ls : List (Option Layout)) (q : ℕ) (t u : CType) → is_array t ≡ true → u ≡ qualify q (element t) → IsFact ls t fact → IsFact ls u elements → IsFact ls (with_element t u) result }
{
    Facts {
        is_const: elements.is_const,
        ..fact
    }
}
