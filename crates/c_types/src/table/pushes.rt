//! How a table takes a type in, and how it gives up the types of a call that failed.

ghost use Rattle.std.specs.Prelude.{◌≡◌, ◌+◌, ◌≢◌, ◌<◌, ◌≤◌, ◌↔◌, ℕ, List, length, [], ◌∷◌, ◌++◌, take, IsTrue, IfOk, OnOk, OnErr, IfErr, IsSome, IfSome, IfNone, Some, None, slice_get};
ghost use Rattle.c_types.specs.CTypes as c;
ghost use Rattle.c_types.specs.Facts.{IsFact};
ghost use Rattle.c_types.specs.Found.{found};
ghost use Rattle.c_types.specs.Keys.{key};
ghost use Rattle.c_types.specs.Canonical.{canonical};
ghost use Rattle.c_types.specs.Records.{is_open, refusal};
ghost use Rattle.c_types.specs.Roots.{IsRoot, IsRootTerm, IsFresh};
ghost use Rattle.c_types.specs.Shapes.{IsShape};
ghost use Rattle.c_types.specs.Sound.{AreNumbered};
ghost use Rattle.c_types.specs.Table.{type_at, term_type, Grows, IsLonger, PartsBelow, NumbersBelow, AllMembersBelow, AreOrdered};
ghost use Rattle.c_types.specs.declared.terms.Term.{Term};
ghost use Rattle.c_types.specs.declared.terms.TypeEnd.TheVariants as end;
ghost use Rattle.c_types.specs.declared.terms.Term.TheVariants as term;

use super::TypeTable;
use crate::facts::{Facts, Shape};
use crate::keys::key_of;
use crate::numbers::Numbers;
use crate::records::{Head, Layout, Members};
use crate::terms::{Term, TypeEnd, TypeId};
use num_ops::IntKind;
use tok_base::{Bytes, NoMemory, Reserved};

impl TypeTable {
    /// Whether a type's term has this key.
    pub(super) fn has_key(&self, id: TypeId, wanted: &[u64]) -> Result<bool, NoMemory>
        requires { id.0 < length self.now.terms }
        ensures key { IfOk result (λ b. (t : Term) → slice_get self.now.terms id.0 ≡ Some t → IsTrue b ↔ (key t ≡ wanted.now)) }
        ensures ordered { AreOrdered self.now.terms }
    {
        let own = key_of(self.alloc, self.term(id))?;
        Ok(own.as_slice() == wanted)
    }

    /// A type whose term has this key; there is one if there is a root.
    pub(super) fn find(&self, wanted: &[u64]) -> Result<Option<TypeId>, NoMemory>
        ensures within { IfOk result (λ o. IfSome o (λ id. id.0 < length self.now.terms)) }
        ensures key { IfOk result (λ o. IfSome o (λ id. (t : Term) → slice_get self.now.terms id.0 ≡ Some t → key t ≡ wanted.now)) }
        ensures fresh { IfOk result (λ o. IfNone o ((t : Term) → key t ≡ wanted.now → IsFresh self.now.terms t)) }
        ensures missing { IfOk result (λ o. IfNone o ((t : Term) → key t ≡ wanted.now → IsRootTerm self.now.terms t → (j : ℕ) → j < length self.now.terms → type_at self.now.terms j ≢ term_type self.now.terms t)) }
    {
        match self.numbers.find(wanted) {
            None => Ok(None),
            Some(number) => self.found(TypeId(number), wanted),
        }
    }

    fn found(&self, id: TypeId, wanted: &[u64]) -> Result<Option<TypeId>, NoMemory>
        ensures some { IfOk result (λ o. IfSome o (λ found. found ≡ id)) }
        ensures within { IfOk result (λ o. IsSome o → id.0 < length self.now.terms) }
        ensures key { IfOk result (λ o. IsSome o → (t : Term) → slice_get self.now.terms id.0 ≡ Some t → key t ≡ wanted.now) }
        ensures none { IfOk result (λ o. IfNone o ((t : Term) → slice_get self.now.terms id.0 ≡ Some t → key t ≢ wanted.now)) }
    {
        if self.len() <= id.0 {
            return Ok(None);
        }
        let is_it = self.has_key(id, wanted)?;
        Ok(if is_it { Some(id) } else { None })
    }

    /// Puts a type at the end, with its key, its facts and its shape.
    pub(super) fn push(
        &mut self,
        term: Term,
        own: Vec<u64>,
        fact: Facts,
        shape: Shape,
    ) -> Result<TypeId, NoMemory>
        requires parts { PartsBelow (length self.old.terms) term }
        requires numbers { NumbersBelow (length self.old.records) (length self.old.enums) term }
        requires fact { IsFact self.old.layouts (term_type self.old.terms term) fact }
        requires key { own.items ≡ key term }
        requires shape { IsShape (self.old.terms ++ term ∷ []) (length self.old.terms) shape }
        requires fresh { IsFresh self.old.terms term }
        requires root { IsRoot (self.old.terms ++ term ∷ []) (length self.old.terms) → IsRootTerm self.old.terms term }
        ensures ok { IfOk result (λ id. id.0 ≡ length self.old.terms) }
        ensures terms { OnOk result (self.new ≡ record self.old { terms = self.old.terms ++ term ∷ [] }) }
        ensures err { OnErr result (self.new ≡ self.old) }
    {
        let id = TypeId(self.terms.len() as u64);
        push_all(
            &mut self.terms,
            &mut self.facts,
            &mut self.shapes,
            &mut self.numbers,
            term,
            own,
            fact,
            shape,
        )?;
        Ok(id)
    }

    /// Adds a type behind its canonical type, or finds it.
    pub(super) fn add_known(&mut self, term: Term, fact: Facts) -> Result<TypeId, TypeEnd>
        requires parts { PartsBelow (length self.old.terms) term }
        requires numbers { NumbersBelow (length self.old.records) (length self.old.enums) term }
        requires fact { IsFact self.old.layouts (term_type self.old.terms term) fact }
        ensures term { IfOk result (λ id. slice_get self.new.terms id.0 ≡ Some term) }
        ensures is { IfOk result (λ id. type_at self.new.terms id.0 ≡ term_type self.old.terms term) }
        ensures valid { IfOk result (λ id. id.0 < length self.new.terms) }
        ensures longer { IsLonger self.old self.new }
        ensures cause { IfErr result (λ e. e ≢ end.NoMemory → refusal self.old.layouts (term_type self.old.terms term) ≡ Some e) }
    {
        let own = key_of(self.alloc, &term)?;
        if let Some(id) = self.find(own.as_slice())? {
            return Ok(id);
        }
        let root = self.canonical_of(&term)?;
        let id = self.put_behind(term, own, fact, root)?;
        Ok(id)
    }

    /// Finds a type, or puts it at the end, where its canonical type is there.
    pub(super) fn put_behind(
        &mut self,
        term: Term,
        own: Vec<u64>,
        fact: Facts,
        root: TypeId,
    ) -> Result<TypeId, NoMemory>
        requires parts { PartsBelow (length self.old.terms) term }
        requires numbers { NumbersBelow (length self.old.records) (length self.old.enums) term }
        requires fact { IsFact self.old.layouts (term_type self.old.terms term) fact }
        requires key { own.items ≡ key term }
        requires root { IsRoot self.old.terms root.0 }
        requires canonical { type_at self.old.terms root.0 ≡ canonical (term_type self.old.terms term) }
        ensures term { IfOk result (λ id. slice_get self.new.terms id.0 ≡ Some term) }
        ensures is { IfOk result (λ id. type_at self.new.terms id.0 ≡ term_type self.old.terms term) }
        ensures valid { IfOk result (λ id. id.0 < length self.new.terms) }
        ensures longer { IsLonger self.old self.new }
    {
        let _ = &self.alloc;
        if let Some(id) = self.find(own.as_slice())? {
            return Ok(id);
        }
        let shape = self.shape_behind(&term, root);
        self.push(term, own, fact, shape)
    }

    /// What is kept of a type that is put at the end, whose canonical type is there.
    fn shape_behind(&self, term: &Term, root: TypeId) -> Shape
        requires parts { PartsBelow (length self.now.terms) term.now }
        requires numbers { NumbersBelow (length self.now.records) (length self.now.enums) term.now }
        requires root { IsRoot self.now.terms root.0 }
        requires canonical { type_at self.now.terms root.0 ≡ canonical (term_type self.now.terms term.now) }
        ensures { IsShape (self.now.terms ++ term.now ∷ []) (length self.now.terms) result }
    {
        let (plain, qualifiers) = self.plain_of(term);
        Shape {
            root,
            plain,
            qualifiers,
            ..self.shape(root)
        }
    }

    /// Declares the next struct or union.
    pub(super) fn push_record(&mut self, head: Head) -> Result<TypeId, NoMemory>
        ensures term { IfOk result (λ id. slice_get self.new.terms id.0 ≡ Some (term.Record (length self.old.records))) }
        ensures is { IfOk result (λ id. type_at self.new.terms id.0 ≡ c.Record (length self.old.records)) }
        ensures valid { IfOk result (λ id. id.0 < length self.new.terms) }
        ensures records { OnOk result (self.new.records ≡ self.old.records ++ head ∷ []) }
        ensures layouts { OnOk result (self.new.layouts ≡ self.old.layouts ++ None ∷ []) }
        ensures members { OnOk result (self.new.members ≡ self.old.members ++ [] ∷ []) }
        ensures unfinished { IfOk result (λ id. IsTrue (is_open self.new.layouts (type_at self.new.terms id.0))) }
        ensures enums { OnOk result (self.new.enums ≡ self.old.enums) }
        ensures grows { OnOk result (Grows self.old.terms self.new.terms) }
        ensures err { OnErr result (self.new ≡ self.old) }
    {
        let number = self.count_records();
        self.push_head(head)?;
        match self.put_root(Term::Record(number), Facts::of_record(number), None) {
            Ok(id) => Ok(id),
            Err(NoMemory) => {
                self.drop_head(number);
                Err(NoMemory)
            }
        }
    }

    fn count_records(&self) -> u64
        ensures count { result ≡ length self.now.records }
        ensures numbered { AreNumbered (length self.now.records) (length self.now.enums) self.now.terms }
        ensures layouts { length self.now.layouts ≡ length self.now.records }
        ensures members { length self.now.members ≡ length self.now.records }
    {
        self.records.len() as u64
    }

    /// Puts a record that is not finished at the end, or nothing.
    fn push_head(&mut self, head: Head) -> Result<(), NoMemory>
        ensures ok { OnOk result (self.new ≡ record self.old { records = self.old.records ++ head ∷ []; layouts = self.old.layouts ++ None ∷ []; members = self.old.members ++ [] ∷ [] }) }
        ensures err { OnErr result (self.new ≡ self.old) }
    {
        let none = Members::none(self.alloc);
        push_open(
            &mut self.records,
            &mut self.layouts,
            &mut self.members,
            head,
            none,
        )?;
        Ok(())
    }

    /// Takes the last record back.
    fn drop_head(&mut self, count: u64)
        requires numbered { AreNumbered count (length self.old.enums) self.old.terms }
        requires records { length self.old.records ≡ count + 1 }
        requires open { slice_get self.old.layouts count ≡ Some None }
        ensures { self.new ≡ record self.old { records = take count self.old.records; layouts = take count self.old.layouts; members = take count self.old.members } }
    {
        self.records.truncate(count as usize);
        self.layouts.truncate(count as usize);
        self.members.truncate(count as usize);
    }

    /// Declares the next enumeration.
    pub(super) fn push_enum(&mut self, name: Bytes) -> Result<TypeId, NoMemory>
        ensures term { IfOk result (λ id. slice_get self.new.terms id.0 ≡ Some (term.Enum (length self.old.enums))) }
        ensures is { IfOk result (λ id. type_at self.new.terms id.0 ≡ c.Enum (length self.old.enums)) }
        ensures valid { IfOk result (λ id. id.0 < length self.new.terms) }
        ensures enums { OnOk result (self.new.enums ≡ self.old.enums ++ name ∷ []) }
        ensures records { OnOk result (self.new.records ≡ self.old.records) }
        ensures layouts { OnOk result (self.new.layouts ≡ self.old.layouts) }
        ensures members { OnOk result (self.new.members ≡ self.old.members) }
        ensures grows { OnOk result (Grows self.old.terms self.new.terms) }
        ensures err { OnErr result (IsLonger self.old self.new) }
    {
        let ints = self.put_root(Term::Int(IntKind::Int), Facts::of_int(IntKind::Int), None)?;
        let number = self.count_enums();
        self.push_name(name)?;
        match self.put_root(Term::Enum(number), Facts::of_enum(), Some(ints)) {
            Ok(id) => Ok(id),
            Err(NoMemory) => {
                self.drop_name(number);
                Err(NoMemory)
            }
        }
    }

    fn count_enums(&self) -> u64
        ensures count { result ≡ length self.now.enums }
        ensures numbered { AreNumbered (length self.now.records) (length self.now.enums) self.now.terms }
    {
        self.enums.len() as u64
    }

    /// Puts the name of an enumeration at the end, or nothing.
    fn push_name(&mut self, name: Bytes) -> Result<(), NoMemory>
        ensures ok { OnOk result (self.new ≡ record self.old { enums = self.old.enums ++ name ∷ [] }) }
        ensures err { OnErr result (self.new ≡ self.old) }
    {
        self.enums.reserve(1)?;
        self.enums.push(name);
        Ok(())
    }

    /// Takes the last enumeration back.
    fn drop_name(&mut self, count: u64)
        requires numbered { AreNumbered (length self.old.records) count self.old.terms }
        requires enums { length self.old.enums ≡ count + 1 }
        ensures { self.new ≡ record self.old { enums = take count self.old.enums } }
    {
        self.enums.truncate(count as usize);
    }

    /// How many types there are, all members having earlier ones.
    pub(super) fn mark(&self) -> u64
        ensures count { result ≡ length self.now.terms }
        ensures members { AllMembersBelow (length self.now.terms) self.now.members }
    {
        self.terms.len() as u64
    }

    /// Gives up all types but the first `count`, which no member has.
    pub(super) fn cut(&mut self, count: u64)
        requires { AllMembersBelow count self.old.members }
        ensures { self.new ≡ record self.old { terms = take count self.old.terms } }
    {
        self.terms.truncate(count as usize);
        self.facts.truncate(count as usize);
        self.shapes.truncate(count as usize);
    }
}

/// Puts the parts of a type at the end, or none.
fn push_all(
    terms: &mut Reserved<Term>,
    facts: &mut Reserved<Facts>,
    shapes: &mut Reserved<Shape>,
    numbers: &mut Numbers,
    term: Term,
    own: Vec<u64>,
    fact: Facts,
    shape: Shape,
) -> Result<(), NoMemory>
    ensures terms { OnOk result (terms.new.items ≡ terms.old.items ++ term ∷ []) }
    ensures facts { OnOk result (facts.new.items ≡ facts.old.items ++ fact ∷ []) }
    ensures shapes { OnOk result (shapes.new.items ≡ shapes.old.items ++ shape ∷ []) }
    ensures here { OnOk result (found numbers.new own.items ≡ Some (length terms.old.items)) }
    ensures others { OnOk result ((other : List ℕ) → other ≢ own.items → found numbers.new other ≡ found numbers.old other) }
    ensures terms_stay { OnErr result (terms.new.items ≡ terms.old.items) }
    ensures facts_stay { OnErr result (facts.new.items ≡ facts.old.items) }
    ensures shapes_stay { OnErr result (shapes.new.items ≡ shapes.old.items) }
    ensures numbers_stay { OnErr result ((other : List ℕ) → found numbers.new other ≡ found numbers.old other) }
{
    terms.reserve(1)?;
    facts.reserve(1)?;
    shapes.reserve(1)?;
    numbers.insert(own, terms.len() as u64)?;
    terms.push(term);
    facts.push(fact);
    shapes.push(shape);
    Ok(())
}

/// Puts the parts of a record that is not finished at the end, or none.
fn push_open(
    records: &mut Reserved<Head>,
    layouts: &mut Reserved<Option<Layout>>,
    members: &mut Reserved<Members>,
    head: Head,
    none: Members,
) -> Result<(), NoMemory>
    ensures records { OnOk result (records.new.items ≡ records.old.items ++ head ∷ []) }
    ensures layouts { OnOk result (layouts.new.items ≡ layouts.old.items ++ None ∷ []) }
    ensures members { OnOk result (members.new.items ≡ members.old.items ++ none ∷ []) }
    ensures records_stay { OnErr result (records.new.items ≡ records.old.items) }
    ensures layouts_stay { OnErr result (layouts.new.items ≡ layouts.old.items) }
    ensures members_stay { OnErr result (members.new.items ≡ members.old.items) }
{
    records.reserve(1)?;
    layouts.reserve(1)?;
    members.reserve(1)?;
    records.push(head);
    layouts.push(None);
    members.push(none);
    Ok(())
}
