//! Types by their numbers.

ghost use Rattle.std.specs.Prelude.{◌≡◌, ◌<◌, length, Option, IfOk, OnOk, IfErr, IfSome, IsSome, IsTrue, ◌↔◌, None, Some, ◌≢◌};
ghost use Rattle.c_types.specs.Compatible.{is_same, are_alike};
ghost use Rattle.c_types.specs.Consts.{holds_const};
ghost use Rattle.c_types.specs.Layout.{align};
ghost use Rattle.c_types.specs.Plain as plain;
ghost use Rattle.c_types.specs.Plain.{qualifiers_met, result_of, parameters_of, is_function};
ghost use Rattle.c_types.specs.Records.{refusal, limit};
ghost use Rattle.c_types.specs.Table.{type_at, types_at, term_type, PartsBelow, NumbersBelow, AllBelow, IsLonger};
ghost use Rattle.c_types.specs.declared.terms.TypeEnd.TheVariants as end;
ghost use Rattle.c_rules.specs.World.{size_in, is_complete};
ghost use Rattle.c_world.specs.Seen.{seen};
ghost use Rattle.c_world.specs.Extends.{Extends};

use super::World;
use c_types::{Term, TypeEnd, TypeId};
use tok_base::NoMemory;

impl World {
    /// Adds a type, whose parts are there.
    pub fn add(&mut self, term: Term) -> Result<TypeId, TypeEnd>
        requires parts { PartsBelow (length self.old.table.terms) term }
        requires numbers { NumbersBelow (length self.old.table.records) (length self.old.table.enums) term }
        ensures seen { seen self.new ≡ seen self.old }
        ensures extends { Extends self.old.table self.new.table }
        ensures is { IfOk result (λ id. type_at self.new.table.terms id.0 ≡ term_type self.old.table.terms term) }
        ensures valid { IfOk result (λ id. id.0 < length self.new.table.terms) }
        ensures cause { IfErr result (λ e. e ≢ end.NoMemory → refusal (seen self.old).records.layouts (term_type self.old.table.terms term) ≡ Some e) }
    {
        self.table.add(term)
    }

    /// Adds a type that no table refuses.
    pub fn make(&mut self, term: Term) -> Result<TypeId, NoMemory>
        requires parts { PartsBelow (length self.old.table.terms) term }
        requires numbers { NumbersBelow (length self.old.table.records) (length self.old.table.enums) term }
        requires accepted { refusal (seen self.old).records.layouts (term_type self.old.table.terms term) ≡ None }
        ensures seen { seen self.new ≡ seen self.old }
        ensures extends { Extends self.old.table self.new.table }
        ensures is { IfOk result (λ id. type_at self.new.table.terms id.0 ≡ term_type self.old.table.terms term) }
        ensures valid { IfOk result (λ id. id.0 < length self.new.table.terms) }
    {
        match self.table.add(term) {
            Ok(id) => Ok(id),
            Err(_) => Err(NoMemory),
        }
    }

    pub fn term(&self, id: TypeId) -> &Term
        requires { id.0 < length self.now.table.terms }
        ensures type_is { type_at self.now.table.terms id.0 ≡ term_type self.now.table.terms result.now }
        ensures parts { PartsBelow id.0 result.now }
        ensures numbers { NumbersBelow (length self.now.table.records) (length self.now.table.enums) result.now }
    {
        self.table.term(id)
    }

    /// The type behind outer typedef names and qualifiers.
    pub fn plain(&self, id: TypeId) -> TypeId
        requires { id.0 < length self.now.table.terms }
        ensures is { type_at self.now.table.terms result.0 ≡ plain.plain (type_at self.now.table.terms id.0) }
        ensures valid { result.0 < length self.now.table.terms }
    {
        self.table.plain(id)
    }

    /// The qualifiers that are met on the way to it.
    pub fn qualifiers_met(&self, id: TypeId) -> u8
        requires { id.0 < length self.now.table.terms }
        ensures is { result ≡ qualifiers_met (type_at self.now.table.terms id.0) }
        ensures small { result < 8 }
    {
        self.table.qualifiers_met(id)
    }

    /// How many bytes a type has, if it has a size.
    pub fn size_of(&self, id: TypeId) -> Option<u32>
        requires { id.0 < length self.now.table.terms }
        ensures is { result ≡ size_in (seen self.now) (type_at self.now.table.terms id.0) }
        ensures small { IfSome result (λ s. s < limit) }
    {
        self.table.size_of(id)
    }

    /// The alignment of a type in bytes (6.2.8), if it has one.
    pub fn align_of(&self, id: TypeId) -> Option<u32>
        requires { id.0 < length self.now.table.terms }
        ensures { result ≡ align (seen self.now).records.layouts (type_at self.now.table.terms id.0) }
    {
        self.table.align_of(id)
    }

    pub fn is_complete(&self, id: TypeId) -> bool
        requires { id.0 < length self.now.table.terms }
        ensures { result ≡ is_complete (seen self.now) (type_at self.now.table.terms id.0) }
    {
        self.size_of(id).is_some()
    }

    /// Whether two types are the same, by their canonical types.
    pub fn same(&self, a: TypeId, b: TypeId) -> bool
        requires a { a.0 < length self.now.table.terms }
        requires b { b.0 < length self.now.table.terms }
        ensures { result ≡ is_same (type_at self.now.table.terms a.0) (type_at self.now.table.terms b.0) }
    {
        self.table.same(a, b)
    }

    /// Whether two types are compatible, their outer qualifiers left aside.
    pub fn alike(&self, a: TypeId, b: TypeId) -> bool
        requires a { a.0 < length self.now.table.terms }
        requires b { b.0 < length self.now.table.terms }
        ensures { result ≡ are_alike (type_at self.now.table.terms a.0) (type_at self.now.table.terms b.0) }
    {
        self.table.alike(a, b)
    }

    /// Whether a type is const, or holds what is const.
    pub fn holds_const(&self, id: TypeId) -> bool
        requires { id.0 < length self.now.table.terms }
        ensures { result ≡ holds_const (seen self.now).records.layouts (type_at self.now.table.terms id.0) }
    {
        self.table.holds_const(id)
    }

    /// The parameters of a function type; another type has none.
    pub fn parameters_of(&self, id: TypeId) -> &[TypeId]
        requires { id.0 < length self.now.table.terms }
        ensures are { types_at self.now.table.terms result.now ≡ parameters_of (plain.plain (type_at self.now.table.terms id.0)) }
        ensures valid { AllBelow (length self.now.table.terms) result.now }
    {
        self.table.parameters_of(id)
    }
}
