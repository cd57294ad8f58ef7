//! Canonical types. Each stands in the table once, and is found by the key of its term.

ghost use Rattle.std.specs.Prelude.{◌≡◌, ◌≢◌, ◌<◌, ◌≤◌, length, [], ◌∷◌, ◌++◌, IfOk, OnErr, IfErr, IfSome, IfNone, Some, slice_get};
ghost use Rattle.c_types.specs.CTypes as c;
ghost use Rattle.c_types.specs.Canonical.{canonical, canonical_parameters, unqualified};
ghost use Rattle.c_types.specs.Compatible.{with_ints};
ghost use Rattle.c_types.specs.Facts.{IsFact};
ghost use Rattle.c_types.specs.Layout.{size};
ghost use Rattle.c_types.specs.Plain.{plain, qualifiers_met};
ghost use Rattle.c_types.specs.Records.{refusal, array_refusal};
ghost use Rattle.c_types.specs.Roots.{IsRoot, IsCanonical, IsRootTerm, AreParameters};
ghost use Rattle.c_types.specs.Shapes.{IsShape};
ghost use Rattle.c_types.specs.Table.{type_at, types_at, term_type, IsLonger, PartsBelow, NumbersBelow, AllBelow};
ghost use Rattle.c_types.specs.declared.terms.TypeEnd.TheVariants as end;

use super::TypeTable;
use crate::facts::{Facts, Shape};
use crate::keys::key_of;
use crate::terms::{Term, TypeEnd, TypeId};
use tok_base::{Items, NoMemory};

impl TypeTable {
    pub(super) fn root(&self, id: TypeId) -> TypeId
        requires { id.0 < length self.now.terms }
        ensures { IsCanonical self.now.terms id.0 result.0 }
    {
        self.shape(id).root
    }

    /// The term of a root, whose parts are roots.
    pub(super) fn root_term(&self, id: TypeId) -> &Term
        requires { IsRoot self.now.terms id.0 }
        ensures is { slice_get self.now.terms id.0 ≡ Some result.now }
        ensures type_is { type_at self.now.terms id.0 ≡ term_type self.now.terms result.now }
        ensures parts { PartsBelow id.0 result.now }
        ensures roots { IsRootTerm self.now.terms result.now }
        ensures numbers { NumbersBelow (length self.now.records) (length self.now.enums) result.now }
    {
        &self.terms.as_slice()[id.0 as usize]
    }

    /// Finds a canonical type, or puts it at the end, behind the one in which enumerations count as `int`.
    pub(super) fn intern(&mut self, term: Term, fact: Facts) -> Result<TypeId, NoMemory>
        requires roots { IsRootTerm self.old.terms term }
        requires numbers { NumbersBelow (length self.old.records) (length self.old.enums) term }
        requires fact { IsFact self.old.layouts (term_type self.old.terms term) fact }
        ensures is { IfOk result (λ id. type_at self.new.terms id.0 ≡ term_type self.old.terms term) }
        ensures root { IfOk result (λ id. IsRoot self.new.terms id.0) }
        ensures longer { IsLonger self.old self.new }
    {
        let ints = self.ints_of(&term, fact)?;
        self.put_root(term, fact, ints)
    }

    /// Finds a canonical type, or puts it at the end; `ints` is the one in which enumerations count as
    /// `int`, where that is another one.
    pub(super) fn put_root(
        &mut self,
        term: Term,
        fact: Facts,
        ints: Option<TypeId>,
    ) -> Result<TypeId, NoMemory>
        requires roots { IsRootTerm self.old.terms term }
        requires numbers { NumbersBelow (length self.old.records) (length self.old.enums) term }
        requires fact { IsFact self.old.layouts (term_type self.old.terms term) fact }
        requires other { IfSome ints (λ id. IsRoot self.old.terms id.0 × (type_at self.old.terms id.0 ≡ with_ints (term_type self.old.terms term))) }
        requires own { IfNone ints (with_ints (term_type self.old.terms term) ≡ term_type self.old.terms term) }
        ensures term { IfOk result (λ id. slice_get self.new.terms id.0 ≡ Some term) }
        ensures is { IfOk result (λ id. type_at self.new.terms id.0 ≡ term_type self.old.terms term) }
        ensures root { IfOk result (λ id. IsRoot self.new.terms id.0) }
        ensures longer { IsLonger self.old self.new }
        ensures err { OnErr result (self.new ≡ self.old) }
    {
        let own = key_of(self.alloc, &term)?;
        let found = self.find(own.as_slice())?;
        match found {
            Some(id) => Ok(self.root(id)),
            None => {
                let shape = self.root_shape(&term, ints);
                self.push(term, own, fact, shape)
            }
        }
    }

    /// What is kept of a canonical type that is put at the end.
    fn root_shape(&self, term: &Term, ints: Option<TypeId>) -> Shape
        requires roots { IsRootTerm self.now.terms term.now }
        requires numbers { NumbersBelow (length self.now.records) (length self.now.enums) term.now }
        requires other { IfSome ints (λ id. IsRoot self.now.terms id.0 × (type_at self.now.terms id.0 ≡ with_ints (term_type self.now.terms term.now))) }
        requires own { IfNone ints (with_ints (term_type self.now.terms term.now) ≡ term_type self.now.terms term.now) }
        requires new { IsCanonical (self.now.terms ++ term.now ∷ []) (length self.now.terms) (length self.now.terms) }
        ensures { IsShape (self.now.terms ++ term.now ∷ []) (length self.now.terms) result }
    {
        let root = TypeId(self.len());
        let ints = ints.unwrap_or(root);
        let (plain, qualifiers) = self.plain_of(term);
        let spelled = self.spelled(term);
        Shape {
            root,
            ints,
            plain,
            qualifiers,
            spelled,
        }
    }

    /// The type behind outer typedef names and qualifiers of a term that is put at the end, and the
    /// qualifiers that are met on the way.
    pub(super) fn plain_of(&self, term: &Term) -> (TypeId, u8)
        requires parts { PartsBelow (length self.now.terms) term.now }
        requires numbers { NumbersBelow (length self.now.records) (length self.now.enums) term.now }
        ensures below { result.0.0 ≤ length self.now.terms }
        ensures plain { type_at (self.now.terms ++ term.now ∷ []) result.0.0 ≡ plain (term_type self.now.terms term.now) }
        ensures qualifiers { result.1 ≡ qualifiers_met (term_type self.now.terms term.now) }
        ensures small { result.1 < 8 }
    {
        match term {
            Term::Named(_, named) => (self.plain(*named), self.qualifiers_met(*named)),
            Term::Qualified(qualifiers, inner) => {
                let met = self.qualifiers_met(*inner);
                (self.plain(*inner), *qualifiers | met)
            }
            _ => (TypeId(self.len()), 0),
        }
    }

    /// The canonical type of a term, which is added where it is missing.
    pub(super) fn canonical_of(&mut self, term: &Term) -> Result<TypeId, TypeEnd>
        requires parts { PartsBelow (length self.old.terms) term.now }
        requires numbers { NumbersBelow (length self.old.records) (length self.old.enums) term.now }
        ensures is { IfOk result (λ id. type_at self.new.terms id.0 ≡ canonical (term_type self.old.terms term.now)) }
        ensures root { IfOk result (λ id. IsRoot self.new.terms id.0) }
        ensures longer { IsLonger self.old self.new }
        ensures cause { IfErr result (λ e. e ≢ end.NoMemory → refusal self.old.layouts (term_type self.old.terms term.now) ≡ Some e) }
    {
        match term {
            Term::Void => self.made(Term::Void, Facts::without_size()),
            Term::Int(kind) => self.made(Term::Int(*kind), Facts::of_int(*kind)),
            Term::Enum(number) => self.made(Term::Enum(*number), Facts::of_enum()),
            Term::Pointer(to) => {
                let to = self.root(*to);
                self.made(Term::Pointer(to), Facts::of_pointer())
            }
            Term::Array(element, count) => self.canonical_array(*element, *count),
            Term::Flexible(element) => self.canonical_flexible(*element),
            Term::Function(returned, parameters) => {
                self.canonical_function(*returned, parameters.as_slice())
            }
            Term::Record(number) => self.made(Term::Record(*number), Facts::of_record(*number)),
            Term::Named(_, named) => Ok(self.root(*named)),
            Term::Qualified(qualifiers, inner) => self.canonical_qualified(*qualifiers, *inner),
        }
    }

    fn made(&mut self, term: Term, fact: Facts) -> Result<TypeId, TypeEnd>
        requires roots { IsRootTerm self.old.terms term }
        requires numbers { NumbersBelow (length self.old.records) (length self.old.enums) term }
        requires fact { IsFact self.old.layouts (term_type self.old.terms term) fact }
        ensures is { IfOk result (λ id. type_at self.new.terms id.0 ≡ term_type self.old.terms term) }
        ensures root { IfOk result (λ id. IsRoot self.new.terms id.0) }
        ensures longer { IsLonger self.old self.new }
        ensures cause { IfErr result (λ e. e ≡ end.NoMemory) }
    {
        let id = self.intern(term, fact)?;
        Ok(id)
    }

    fn canonical_array(&mut self, element: TypeId, count: u32) -> Result<TypeId, TypeEnd>
        requires { element.0 < length self.old.terms }
        ensures is { IfOk result (λ id. type_at self.new.terms id.0 ≡ c.Array (canonical (type_at self.old.terms element.0)) count) }
        ensures root { IfOk result (λ id. IsRoot self.new.terms id.0) }
        ensures longer { IsLonger self.old self.new }
        ensures cause { IfErr result (λ e. e ≢ end.NoMemory → array_refusal count (size self.old.layouts (type_at self.old.terms element.0)) ≡ Some e) }
    {
        let root = self.root(element);
        match self.array_fact(root, count) {
            Ok(fact) => self.made(Term::Array(root, count), fact),
            Err(end) => Err(end),
        }
    }

    fn canonical_flexible(&mut self, element: TypeId) -> Result<TypeId, TypeEnd>
        requires { element.0 < length self.old.terms }
        ensures is { IfOk result (λ id. type_at self.new.terms id.0 ≡ c.Flexible (canonical (type_at self.old.terms element.0))) }
        ensures root { IfOk result (λ id. IsRoot self.new.terms id.0) }
        ensures longer { IsLonger self.old self.new }
        ensures cause { IfErr result (λ e. e ≢ end.NoMemory → refusal self.old.layouts (c.Flexible (type_at self.old.terms element.0)) ≡ Some e) }
    {
        let root = self.root(element);
        match self.flexible_fact(root) {
            Ok(fact) => self.made(Term::Flexible(root), fact),
            Err(end) => Err(end),
        }
    }

    fn canonical_function(
        &mut self,
        returned: TypeId,
        parameters: &[TypeId],
    ) -> Result<TypeId, TypeEnd>
        requires returned { returned.0 < length self.old.terms }
        requires parameters { AllBelow (length self.old.terms) parameters.now }
        ensures is { IfOk result (λ id. type_at self.new.terms id.0 ≡ c.Function (canonical (type_at self.old.terms returned.0)) (canonical_parameters (types_at self.old.terms parameters.now))) }
        ensures root { IfOk result (λ id. IsRoot self.new.terms id.0) }
        ensures longer { IsLonger self.old self.new }
        ensures cause { IfErr result (λ e. e ≡ end.NoMemory) }
    {
        let root = self.root(returned);
        let roots = self.canonical_parameters(parameters)?;
        self.made(Term::Function(root, roots), Facts::without_size())
    }

    fn canonical_parameters(&self, parameters: &[TypeId]) -> Result<Items<TypeId>, NoMemory>
        requires { AllBelow (length self.now.terms) parameters.now }
        ensures roots { IfOk result (λ roots. AreParameters self.now.terms roots) }
        ensures is { IfOk result (λ roots. types_at self.now.terms roots ≡ canonical_parameters (types_at self.now.terms parameters.now)) }
    {
        let mut roots = Items::new(self.alloc);
        for parameter in parameters {
            roots.push(self.parameter(*parameter))?;
        }
        Ok(roots)
    }

    /// The canonical type of a parameter, without its outer qualifiers.
    fn parameter(&self, id: TypeId) -> TypeId
        requires { id.0 < length self.now.terms }
        ensures root { IsRoot self.now.terms result.0 }
        ensures is { type_at self.now.terms result.0 ≡ unqualified (canonical (type_at self.now.terms id.0)) }
        ensures bare { unqualified (type_at self.now.terms result.0) ≡ type_at self.now.terms result.0 }
    {
        self.unqualified(self.root(id))
    }
}
