//! The same type, and compatible types.

ghost use Rattle.std.specs.Prelude.{◌≡◌, ◌<◌, ◌↔◌, true, IsTrue, IsSome, length, IfOk, IfSome, IfNone};
ghost use Rattle.c_types.specs.Canonical.{canonical, unqualified};
ghost use Rattle.c_types.specs.Compatible.{is_same, are_compatible, are_alike, with_ints};
ghost use Rattle.c_types.specs.Facts.{IsFact};
ghost use Rattle.c_types.specs.Roots.{IsRoot, IsRootTerm, is_bare};
ghost use Rattle.c_types.specs.Sameness.{IsFirst};
ghost use Rattle.c_types.specs.Table.{type_at, term_type, IsLonger, NumbersBelow};

use super::TypeTable;
use crate::facts::Facts;
use crate::terms::{Term, TypeId};
use num_ops::IntKind;
use tok_base::NoMemory;

impl TypeTable {
    /// The number of the canonical type, in which typedef names are replaced by their types, the qualifiers
    /// of one type are joined, those of an array stand at its elements, and parameters have no outer ones
    /// (6.7.3, 6.7.6.3). Types with one canonical type have one number here.
    pub fn canonical(&self, id: TypeId) -> TypeId
        requires { id.0 < length self.now.terms }
        ensures { IsFirst self.now.terms (canonical (type_at self.now.terms id.0)) result.0 }
    {
        self.root(id)
    }

    /// Whether two types have the same canonical type.
    pub fn same(&self, a: TypeId, b: TypeId) -> bool
        requires a { a.0 < length self.now.terms }
        requires b { b.0 < length self.now.terms }
        ensures exact { IsTrue result ↔ (canonical (type_at self.now.terms a.0) ≡ canonical (type_at self.now.terms b.0)) }
        ensures is { result ≡ is_same (type_at self.now.terms a.0) (type_at self.now.terms b.0) }
    {
        let first = self.canonical(a);
        let second = self.canonical(b);
        first.0 == second.0
    }

    /// Whether two types are compatible (6.2.7): their canonical types are the same where enumerations
    /// count as `int`, but not inside a function type.
    pub fn compatible(&self, a: TypeId, b: TypeId) -> bool
        requires a { a.0 < length self.now.terms }
        requires b { b.0 < length self.now.terms }
        ensures { result ≡ are_compatible (type_at self.now.terms a.0) (type_at self.now.terms b.0) }
    {
        let first = self.ints(a);
        let second = self.ints(b);
        first.0 == second.0
    }

    /// Whether two types are compatible, the outer qualifiers of both left aside.
    pub fn alike(&self, a: TypeId, b: TypeId) -> bool
        requires a { a.0 < length self.now.terms }
        requires b { b.0 < length self.now.terms }
        ensures { result ≡ are_alike (type_at self.now.terms a.0) (type_at self.now.terms b.0) }
    {
        let ints_a = self.ints(a);
        let ints_b = self.ints(b);
        let first = self.unqualified(ints_a);
        let second = self.unqualified(ints_b);
        first.0 == second.0
    }

    /// The canonical type in which enumerations count as `int`.
    fn ints(&self, id: TypeId) -> TypeId
        requires { id.0 < length self.now.terms }
        ensures is { type_at self.now.terms result.0 ≡ with_ints (canonical (type_at self.now.terms id.0)) }
        ensures root { IsRoot self.now.terms result.0 }
    {
        self.shape(id).ints
    }

    /// Of a canonical type.
    fn ints_at(&self, root: TypeId) -> TypeId
        requires { IsRoot self.now.terms root.0 }
        ensures is { type_at self.now.terms result.0 ≡ with_ints (type_at self.now.terms root.0) }
        ensures root { IsRoot self.now.terms result.0 }
        ensures bare { is_bare (type_at self.now.terms root.0) ≡ true → is_bare (type_at self.now.terms result.0) ≡ true }
        ensures done { with_ints (type_at self.now.terms result.0) ≡ type_at self.now.terms result.0 }
    {
        self.ints(root)
    }

    /// A canonical type without its outer qualifiers.
    pub(super) fn unqualified(&self, root: TypeId) -> TypeId
        requires { IsRoot self.now.terms root.0 }
        ensures root { IsRoot self.now.terms result.0 }
        ensures is { type_at self.now.terms result.0 ≡ unqualified (type_at self.now.terms root.0) }
        ensures bare { unqualified (type_at self.now.terms result.0) ≡ type_at self.now.terms result.0 }
    {
        match self.root_term(root) {
            Term::Qualified(_, inner) => *inner,
            _ => root,
        }
    }

    /// The canonical type in which enumerations count as `int`, where that is not the one of this term.
    pub(super) fn ints_of(&mut self, term: &Term, fact: Facts) -> Result<Option<TypeId>, NoMemory>
        requires roots { IsRootTerm self.old.terms term.now }
        requires numbers { NumbersBelow (length self.old.records) (length self.old.enums) term.now }
        requires fact { IsFact self.old.layouts (term_type self.old.terms term.now) fact }
        ensures some { IfOk result (λ o. IfSome o (λ id. IsRoot self.new.terms id.0 × (type_at self.new.terms id.0 ≡ with_ints (term_type self.old.terms term.now)))) }
        ensures none { IfOk result (λ o. IfNone o (with_ints (term_type self.old.terms term.now) ≡ term_type self.old.terms term.now)) }
        ensures longer { IsLonger self.old self.new }
    {
        match term {
            Term::Enum(_) => self.other(Term::Int(IntKind::Int), fact),
            Term::Pointer(to) => {
                let ints = self.ints_at(*to);
                if ints.0 == to.0 {
                    return Ok(None);
                }
                self.other(Term::Pointer(ints), fact)
            }
            Term::Array(element, count) => {
                let ints = self.ints_at(*element);
                if ints.0 == element.0 {
                    return Ok(None);
                }
                self.other(Term::Array(ints, *count), fact)
            }
            Term::Flexible(element) => {
                let ints = self.ints_at(*element);
                if ints.0 == element.0 {
                    return Ok(None);
                }
                self.other(Term::Flexible(ints), fact)
            }
            Term::Qualified(qualifiers, inner) => {
                let ints = self.ints_at(*inner);
                if ints.0 == inner.0 {
                    return Ok(None);
                }
                self.other(Term::Qualified(*qualifiers, ints), fact)
            }
            _ => Ok(None),
        }
    }

    /// A canonical type without enumerations outside function types.
    fn other(&mut self, term: Term, fact: Facts) -> Result<Option<TypeId>, NoMemory>
        requires roots { IsRootTerm self.old.terms term }
        requires numbers { NumbersBelow (length self.old.records) (length self.old.enums) term }
        requires fact { IsFact self.old.layouts (term_type self.old.terms term) fact }
        requires ints { with_ints (term_type self.old.terms term) ≡ term_type self.old.terms term }
        ensures is { IfOk result (λ o. IfSome o (λ id. IsRoot self.new.terms id.0 × (type_at self.new.terms id.0 ≡ term_type self.old.terms term))) }
        ensures some { IfOk result (λ o. IsSome o) }
        ensures longer { IsLonger self.old self.new }
    {
        let id = self.put_root(term, fact, None)?;
        Ok(Some(id))
    }
}
