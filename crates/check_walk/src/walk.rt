//! The walk: one cycle of functions that borrow the tree.

ghost use Rattle.std.specs.Prelude.{◌<◌, ℕ, None, true, length, map, pos, IfOk, OnOk};
ghost use Rattle.c_tree.specs.Marked as t;
ghost use Rattle.c_tree.specs.View.{view, view_declarator, view_spec, view_type_name, boxed_declarator, boxed_expr, declarators_of, enumerators_of, exprs_of, fields_of, params_of, specs_of};
ghost use Rattle.c_types.specs.Table.{type_at, member_of, AllBelow, MembersBelow};
ghost use Rattle.c_types.specs.Table as table;
ghost use Rattle.c_rules.specs.Specifiers as specifiers;
ghost use Rattle.c_rules.specs.Walk as walk;
ghost use Rattle.c_world.specs.Extends.{Extends};
ghost use Rattle.c_world.specs.Seen.{seen, Gives};
ghost use Rattle.declarator_rules.specs.Layers.{LayersBelow, all_types, laid_of};
ghost use Rattle.expression_rules.specs.Arguments as arguments;
ghost use Rattle.expression_rules.specs.Typed.{typed_of};
ghost use Rattle.specifier_rules.specs.Specified.{specified_of};
ghost use Rattle.check_walk.specs.Parts.{record_seen, enum_seen};
ghost use Rattle.check_walk.specs.Walking.{base_of, enumerator_of, field_of, function_around, gathered, judge_two, member_in, one, param_of, sized_by, two_of};

use crate::lists::{
    bare, gather_member, gather_param, judge_builtin_with, next_constant, next_place, stands_alone,
};
use body_rules::{at_of, at_of_expr, at_of_maybe, is_named, qualifiers_in};
use c_tree::{At, Declarator, Enum, Enumerator, Expr, Field, Param, Record, Spec, TypeName};
use c_types::{Member, TypeId};
use c_world::{CheckEnd, World};
use check_expressions::{
    Whole, judge_arrow, judge_assign, judge_binary, judge_call, judge_cast, judge_char,
    judge_comma, judge_cond, judge_dot, judge_index, judge_name, judge_number, judge_paren,
    judge_prefix, judge_sizeof, judge_step, judge_text,
};
use constant_values::Constant;
use declarator_rules::Laid;
use expression_rules::{Argument, Typed};
use name_rules::judge_enumerator;
use part_rules::{
    end_function, judge_attribute, judge_enum, judge_enum_tag, judge_named_type, judge_record,
    judge_record_tag, name_type, parameter_number, tagged_enum, tagged_record,
};
use specifier_rules::{Specified, judge_part};
use std::alloc::Global;
use tok_base::{Bytes, Items};

/// What is known of two expressions.
#[derive(Clone, Copy)]
struct Two {
    x: Typed,
    y: Typed,
}

/// What is known of an expression. `fixed`: it stands in an integer constant expression or in the initialiser
/// of a static object.
#[cycle(walk)]
pub fn judge(
    world: &mut World,
    alloc: Global,
    whole: &Whole,
    fixed: bool,
    e: &Expr,
) -> Result<Typed, CheckEnd>
    ensures gives { Gives (walk.judge whole.now fixed (view e.now)) (seen world.old) result (typed_of world.new.table.terms) (seen world.new) }
    ensures extends { OnOk result (Extends world.old.table world.new.table) }
    ensures valid { IfOk result (λ r. r.ty.0 < length world.new.table.terms) }
{
    match e {
        Expr::Comma(at, a, b) => {
            let two = judge_two(world, alloc, whole, fixed, a, b)?;
            judge_comma(world, *at, &two.y)
        }
        Expr::Assign(at, a, op, b) => {
            let two = judge_two(world, alloc, whole, fixed, a, b)?;
            judge_assign(world, *at, *op, &two.x, at_of_expr(b), &two.y)
        }
        Expr::Cond(at, c, a, b) => judge_choice(world, alloc, whole, fixed, *at, c, a, b),
        Expr::Binary(at, a, op, b) => {
            let two = judge_two(world, alloc, whole, fixed, a, b)?;
            judge_binary(world, *at, *op, &two.x, &two.y)
        }
        Expr::Cast(at, name, a) => judge_cast_to(world, alloc, whole, fixed, *at, name, a),
        Expr::Prefix(at, op, a) => {
            let x = judge(world, alloc, whole, fixed, a)?;
            judge_prefix(world, *at, *op, &x)
        }
        Expr::SizeofExpr(at, a) => {
            let x = judge(world, alloc, whole, fixed, a)?;
            judge_sizeof(world, *at, x.ty)
        }
        Expr::SizeofType(at, name) => {
            let ty = judge_name_of_type(world, alloc, whole, fixed, name)?;
            judge_sizeof(world, *at, ty)
        }
        Expr::Index(at, a, b) => {
            let two = judge_two(world, alloc, whole, fixed, a, b)?;
            judge_index(world, *at, &two.x, &two.y)
        }
        Expr::Call(at, f, xs) => {
            let g = judge(world, alloc, whole, fixed, f)?;
            let given = judge_all(world, alloc, whole, fixed, xs)?;
            judge_call(world, *at, &g, given.as_slice())
        }
        Expr::Dot(at, a, name) => {
            let x = judge(world, alloc, whole, fixed, a)?;
            judge_dot(world, *at, &x, name.as_slice())
        }
        Expr::Arrow(at, a, name) => {
            let x = judge(world, alloc, whole, fixed, a)?;
            judge_arrow(world, *at, &x, name.as_slice())
        }
        Expr::Post(at, a, _) => {
            let x = judge(world, alloc, whole, fixed, a)?;
            judge_step(world, *at, &x)
        }
        Expr::Name(at, name) => judge_name(world, whole, *at, name.as_slice()),
        Expr::Number(at, text) => judge_number(world, *at, text.as_slice()),
        Expr::Char(at, text) => judge_char(world, *at, text.as_slice()),
        Expr::Text(at, texts) => judge_text(world, alloc, *at, texts.as_slice()),
        Expr::Paren(at, a) => {
            let x = judge(world, alloc, whole, fixed, a)?;
            judge_paren(world, *at, &x)
        }
        Expr::Builtin(at, xs) => {
            let _ = judge_all(world, alloc, whole, fixed, xs)?;
            judge_builtin_with(world, fixed, *at, xs)
        }
    }
}

/// Two expressions from left to right.
#[cycle(walk)]
fn judge_two(
    world: &mut World,
    alloc: Global,
    whole: &Whole,
    fixed: bool,
    a: &Expr,
    b: &Expr,
) -> Result<Two, CheckEnd>
    ensures gives { Gives (judge_two whole.now fixed (view a.now) (view b.now)) (seen world.old) result (two_of world.new.table.terms) (seen world.new) }
    ensures extends { OnOk result (Extends world.old.table world.new.table) }
    ensures left { IfOk result (λ p. p.x.ty.0 < length world.new.table.terms) }
    ensures right { IfOk result (λ p. p.y.ty.0 < length world.new.table.terms) }
{
    let x = judge(world, alloc, whole, fixed, a)?;
    let y = judge(world, alloc, whole, fixed, b)?;
    Ok(Two { x, y })
}

/// `c ? a : b`
#[cycle(walk)]
fn judge_choice(
    world: &mut World,
    alloc: Global,
    whole: &Whole,
    fixed: bool,
    at: At,
    c: &Expr,
    a: &Expr,
    b: &Expr,
) -> Result<Typed, CheckEnd>
    ensures gives { Gives (walk.judge whole.now fixed (t.Cond at (view c.now) (view a.now) (view b.now))) (seen world.old) result (typed_of world.new.table.terms) (seen world.new) }
    ensures extends { OnOk result (Extends world.old.table world.new.table) }
    ensures valid { IfOk result (λ r. r.ty.0 < length world.new.table.terms) }
{
    let z = judge(world, alloc, whole, fixed, c)?;
    let two = judge_two(world, alloc, whole, fixed, a, b)?;
    judge_cond(world, at, &z, &two.x, &two.y)
}

/// A cast.
#[cycle(walk)]
fn judge_cast_to(
    world: &mut World,
    alloc: Global,
    whole: &Whole,
    fixed: bool,
    at: At,
    name: &TypeName,
    a: &Expr,
) -> Result<Typed, CheckEnd>
    ensures gives { Gives (walk.judge whole.now fixed (t.Cast at (view_type_name name.now) (view a.now))) (seen world.old) result (typed_of world.new.table.terms) (seen world.new) }
    ensures extends { OnOk result (Extends world.old.table world.new.table) }
    ensures valid { IfOk result (λ r. r.ty.0 < length world.new.table.terms) }
{
    let ty = judge_name_of_type(world, alloc, whole, fixed, name)?;
    let x = judge(world, alloc, whole, fixed, a)?;
    judge_cast(world, at, ty, &x)
}

/// Arguments from left to right.
#[cycle(walk)]
pub fn judge_all(
    world: &mut World,
    alloc: Global,
    whole: &Whole,
    fixed: bool,
    xs: &Items<Expr>,
) -> Result<Items<Argument>, CheckEnd>
    ensures gives { Gives (walk.judge_all whole.now fixed (exprs_of xs.now)) (seen world.old) result (λ ys. arguments.all_given world.new.table.terms ys) (seen world.new) }
    ensures extends { OnOk result (Extends world.old.table world.new.table) }
    ensures valid { IfOk result (λ ys. arguments.AllBelow (length world.new.table.terms) ys) }
{
    let mut done = Items::new(alloc);
    for x in xs.as_slice() {
        match judge(world, alloc, whole, fixed, x) {
            Ok(typed) => {
                let at = at_of_expr(x);
                done.push(Argument { at, typed })?;
            }
            Err(end) => return Err(end),
        }
    }
    Ok(done)
}

/// The type of a type name.
#[cycle(walk)]
pub fn judge_name_of_type(
    world: &mut World,
    alloc: Global,
    whole: &Whole,
    fixed: bool,
    name: &TypeName,
) -> Result<TypeId, CheckEnd>
    ensures gives { Gives (walk.judge_name_of_type whole.now fixed (view_type_name name.now)) (seen world.old) result (λ r. type_at world.new.table.terms r.0) (seen world.new) }
    ensures extends { OnOk result (Extends world.old.table world.new.table) }
    ensures valid { IfOk result (λ r. r.0 < length world.new.table.terms) }
{
    let base = judge_base(world, alloc, whole, fixed, name.at, &name.specs)?;
    let laid = judge_maybe(world, alloc, whole, fixed, name.at, &name.declarator)?;
    let outer = at_of_maybe(name.at, &name.declarator);
    judge_named_type(world, alloc, name.at, outer, base, &laid)
}

/// The type that the specifiers of a field, a parameter or a type name give: rule 3.
#[cycle(walk)]
fn judge_base(
    world: &mut World,
    alloc: Global,
    whole: &Whole,
    fixed: bool,
    at: At,
    specs: &Items<Spec>,
) -> Result<TypeId, CheckEnd>
    ensures gives { (before : ℕ) → Gives (base_of whole.now fixed before at (specs_of specs.now)) (seen world.old) result (λ r. type_at world.new.table.terms r.0) (seen world.new) }
    ensures extends { OnOk result (Extends world.old.table world.new.table) }
    ensures valid { IfOk result (λ r. r.0 < length world.new.table.terms) }
{
    let own = None;
    let specified = judge_specs(world, alloc, whole, fixed, &own, specs)?;
    judge_part(world, at, &specified)
}

/// Specifiers. `own` is the typedef name that is declared with them.
#[cycle(walk)]
pub fn judge_specs(
    world: &mut World,
    alloc: Global,
    whole: &Whole,
    fixed: bool,
    own: &Option<Bytes>,
    specs: &Items<Spec>,
) -> Result<Specified, CheckEnd>
    ensures gives { Gives (walk.judge_specs whole.now fixed own.now (specs_of specs.now) specifiers.nothing_specified) (seen world.old) result (specified_of world.new.table.terms) (seen world.new) }
    ensures extends { OnOk result (Extends world.old.table world.new.table) }
    ensures valid { IfOk result (λ s. AllBelow (length world.new.table.terms) s.types) }
{
    let mut specified = Specified::new(alloc);
    for spec in specs.as_slice() {
        match judge_spec(world, alloc, whole, fixed, own, spec, &mut specified) {
            Ok(()) => {}
            Err(end) => return Err(end),
        }
    }
    Ok(specified)
}

/// One specifier more.
#[cycle(walk)]
fn judge_spec(
    world: &mut World,
    alloc: Global,
    whole: &Whole,
    fixed: bool,
    own: &Option<Bytes>,
    spec: &Spec,
    specified: &mut Specified,
) -> Result<(), CheckEnd>
    requires { AllBelow (length world.old.table.terms) specified.old.types }
    ensures gives { Gives (walk.judge_specs whole.now fixed own.now (view_spec spec.now t.no_specs) (specified_of world.old.table.terms specified.old)) (seen world.old) result (λ _. specified_of world.new.table.terms specified.new) (seen world.new) }
    ensures extends { OnOk result (Extends world.old.table world.new.table) }
    ensures valid { OnOk result (AllBelow (length world.new.table.terms) specified.new.types) }
{
    match spec {
        Spec::Keyword(word) => {
            specified.put_word(*word)?;
            Ok(())
        }
        Spec::Typedef(name) => {
            let ty = name_type(world, name.as_slice())?;
            specified.put_type(ty)?;
            Ok(())
        }
        Spec::Attribute(attribute) => judge_attribute(attribute),
        Spec::Record(record) => {
            let ty = judge_record_spec(world, alloc, whole, fixed, own, record)?;
            specified.put_tagged(ty)?;
            Ok(())
        }
        Spec::Enum(enumeration) => {
            let ty = judge_enum_spec(world, alloc, whole, own, enumeration)?;
            specified.put_tagged(ty)?;
            Ok(())
        }
    }
}

/// A struct or union.
#[cycle(walk)]
fn judge_record_spec(
    world: &mut World,
    alloc: Global,
    whole: &Whole,
    fixed: bool,
    own: &Option<Bytes>,
    r: &Record,
) -> Result<TypeId, CheckEnd>
    ensures gives { Gives (record_seen whole.now fixed own.now r.now) (seen world.old) result (λ r. type_at world.new.table.terms r.0) (seen world.new) }
    ensures extends { OnOk result (Extends world.old.table world.new.table) }
    ensures valid { IfOk result (λ r. r.0 < length world.new.table.terms) }
{
    let number = tagged_record(world, r.is_union, &r.tag, own)?;
    match &r.fields {
        None => judge_record_tag(world, r.at, r.is_union, &r.tag, number),
        Some(fields) => {
            let members = judge_fields(world, alloc, whole, fixed, fields)?;
            judge_record(world, alloc, r.at, r.is_union, &r.tag, number, members)
        }
    }
}

/// An enumeration.
#[cycle(walk)]
fn judge_enum_spec(
    world: &mut World,
    alloc: Global,
    whole: &Whole,
    own: &Option<Bytes>,
    e: &Enum,
) -> Result<TypeId, CheckEnd>
    ensures gives { (fixed : walk.Fixed) → Gives (enum_seen whole.now fixed own.now e.now) (seen world.old) result (λ r. type_at world.new.table.terms r.0) (seen world.new) }
    ensures extends { OnOk result (Extends world.old.table world.new.table) }
    ensures valid { IfOk result (λ r. r.0 < length world.new.table.terms) }
{
    let number = tagged_enum(world, &e.tag, own)?;
    match &e.list {
        None => judge_enum_tag(world, e.at, &e.tag, number),
        Some(list) => {
            judge_enumerators(world, alloc, whole, &list.enumerators)?;
            judge_enum(world, e.at, &e.tag, number)
        }
    }
}

/// The members of a struct or union.
#[cycle(walk)]
fn judge_fields(
    world: &mut World,
    alloc: Global,
    whole: &Whole,
    fixed: bool,
    fields: &Items<Field>,
) -> Result<Items<Member>, CheckEnd>
    ensures gives { Gives (walk.judge_fields whole.now fixed (fields_of fields.now)) (seen world.old) result (λ ms. map (member_of world.new.table.terms) ms) (seen world.new) }
    ensures extends { OnOk result (Extends world.old.table world.new.table) }
    ensures valid { IfOk result (λ ms. MembersBelow (length world.new.table.terms) ms) }
{
    let mut members = Items::new(alloc);
    for field in fields.as_slice() {
        match judge_field(world, alloc, whole, fixed, field, &mut members) {
            Ok(()) => {}
            Err(end) => return Err(end),
        }
    }
    Ok(members)
}

/// The members of one field more.
#[cycle(walk)]
fn judge_field(
    world: &mut World,
    alloc: Global,
    whole: &Whole,
    fixed: bool,
    field: &Field,
    members: &mut Items<Member>,
) -> Result<(), CheckEnd>
    requires members { MembersBelow (length world.old.table.terms) members.old }
    ensures gives { Gives (gathered (map (member_of world.old.table.terms) members.old) (field_of whole.now fixed field.now.at (specs_of field.now.specs) (declarators_of field.now.declarators))) (seen world.old) result (λ _. map (member_of world.new.table.terms) members.new) (seen world.new) }
    ensures extends { OnOk result (Extends world.old.table world.new.table) }
    ensures valid { OnOk result (MembersBelow (length world.new.table.terms) members.new) }
{
    let base = judge_base(world, alloc, whole, fixed, field.at, &field.specs)?;
    judge_members(
        world,
        alloc,
        whole,
        fixed,
        base,
        &field.declarators,
        members,
    )
}

/// The members of a base type that declarators declare.
#[cycle(walk)]
fn judge_members(
    world: &mut World,
    alloc: Global,
    whole: &Whole,
    fixed: bool,
    base: TypeId,
    declarators: &Items<Declarator>,
    members: &mut Items<Member>,
) -> Result<(), CheckEnd>
    requires base { base.0 < length world.old.table.terms }
    requires members { MembersBelow (length world.old.table.terms) members.old }
    ensures gives { Gives (gathered (map (member_of world.old.table.terms) members.old) (walk.judge_members whole.now fixed (type_at world.old.table.terms base.0) (declarators_of declarators.now))) (seen world.old) result (λ _. map (member_of world.new.table.terms) members.new) (seen world.new) }
    ensures extends { OnOk result (Extends world.old.table world.new.table) }
    ensures valid { OnOk result (MembersBelow (length world.new.table.terms) members.new) }
{
    for d in declarators.as_slice() {
        match judge_declared_member(world, alloc, whole, fixed, base, d, members) {
            Ok(()) => {}
            Err(end) => return Err(end),
        }
    }
    Ok(())
}

/// One member more.
#[cycle(walk)]
fn judge_declared_member(
    world: &mut World,
    alloc: Global,
    whole: &Whole,
    fixed: bool,
    base: TypeId,
    d: &Declarator,
    members: &mut Items<Member>,
) -> Result<(), CheckEnd>
    requires base { base.0 < length world.old.table.terms }
    requires members { MembersBelow (length world.old.table.terms) members.old }
    ensures gives { Gives (gathered (map (member_of world.old.table.terms) members.old) (one (member_in whole.now fixed (type_at world.old.table.terms base.0) (view_declarator d.now)))) (seen world.old) result (λ _. map (member_of world.new.table.terms) members.new) (seen world.new) }
    ensures extends { OnOk result (Extends world.old.table world.new.table) }
    ensures valid { OnOk result (MembersBelow (length world.new.table.terms) members.new) }
{
    let laid = judge_layers(world, alloc, whole, fixed, d)?;
    gather_member(world, alloc, at_of(d), base, &laid, members)
}

/// Enumerators; one without a value has that of the one before it, and one more.
#[cycle(walk)]
fn judge_enumerators(
    world: &mut World,
    alloc: Global,
    whole: &Whole,
    enumerators: &Items<Enumerator>,
) -> Result<(), CheckEnd>
    ensures gives { Gives (walk.judge_enumerators whole.now (pos 0) (enumerators_of enumerators.now)) (seen world.old) result (λ _. tt) (seen world.new) }
    ensures extends { OnOk result (Extends world.old.table world.new.table) }
{
    let mut next: i128 = 0;
    for e in enumerators.as_slice() {
        match judge_one_enumerator(world, alloc, whole, next, e) {
            Ok(later) => next = later,
            Err(end) => return Err(end),
        }
    }
    Ok(())
}

#[cycle(walk)]
fn judge_one_enumerator(
    world: &mut World,
    alloc: Global,
    whole: &Whole,
    next: i128,
    e: &Enumerator,
) -> Result<i128, CheckEnd>
    ensures gives { Gives (enumerator_of whole.now e.now.at e.now.name next (boxed_expr e.now.value)) (seen world.old) result (λ z. z) (seen world.new) }
    ensures extends { OnOk result (Extends world.old.table world.new.table) }
{
    let value = judge_value(world, alloc, whole, next, &e.value)?;
    judge_enumerator(world, alloc, e.at, e.name.as_slice(), next, value)
}

/// The value of an enumerator, or the next one.
#[cycle(walk)]
fn judge_value(
    world: &mut World,
    alloc: Global,
    whole: &Whole,
    next: i128,
    value: &Option<Box<Expr>>,
) -> Result<Constant, CheckEnd>
    ensures gives { Gives (walk.judge_value whole.now next (boxed_expr value.now)) (seen world.old) result (λ c. c) (seen world.new) }
    ensures extends { OnOk result (Extends world.old.table world.new.table) }
{
    match value {
        None => {
            let value = next_constant(next)?;
            Ok(value)
        }
        Some(e) => {
            let x = judge(world, alloc, whole, true, e)?;
            Ok(x.value)
        }
    }
}

/// A declarator that may be absent.
#[cycle(walk)]
fn judge_maybe(
    world: &mut World,
    alloc: Global,
    whole: &Whole,
    fixed: bool,
    at: At,
    declarator: &Option<Box<Declarator>>,
) -> Result<Laid, CheckEnd>
    ensures gives { Gives (walk.judge_maybe whole.now fixed at (boxed_declarator declarator.now)) (seen world.old) result (laid_of world.new.table.terms) (seen world.new) }
    ensures extends { OnOk result (Extends world.old.table world.new.table) }
    ensures valid { IfOk result (λ l. LayersBelow (length world.new.table.terms) l.layers) }
{
    match declarator {
        None => Ok(Laid::bare(alloc, None, at)),
        Some(d) => judge_layers(world, alloc, whole, fixed, d),
    }
}

/// The layers of a declarator, the one next to the name first.
#[cycle(walk)]
pub fn judge_layers(
    world: &mut World,
    alloc: Global,
    whole: &Whole,
    fixed: bool,
    d: &Declarator,
) -> Result<Laid, CheckEnd>
    ensures gives { Gives (walk.judge_layers whole.now fixed (view_declarator d.now)) (seen world.old) result (laid_of world.new.table.terms) (seen world.new) }
    ensures extends { OnOk result (Extends world.old.table world.new.table) }
    ensures valid { IfOk result (λ l. LayersBelow (length world.new.table.terms) l.layers) }
{
    match d {
        Declarator::Declared(at, name) => {
            let laid = bare(alloc, *at, name)?;
            Ok(laid)
        }
        Declarator::Group(_, d) => judge_layers(world, alloc, whole, fixed, d),
        Declarator::PointerTo(_, qualifiers, d) => {
            let mut laid = judge_layers(world, alloc, whole, fixed, d)?;
            laid.put_pointer(qualifiers_in(qualifiers))?;
            Ok(laid)
        }
        Declarator::ArrayOf(_, d, size) => {
            let laid = judge_layers(world, alloc, whole, fixed, d)?;
            judge_length(world, alloc, whole, laid, size)
        }
        Declarator::FunctionOf(_, d, params) => {
            let laid = judge_layers(world, alloc, whole, fixed, d)?;
            judge_function(world, alloc, whole, fixed, laid, params)
        }
    }
}

/// Brackets around a declarator, with a length or without one.
#[cycle(walk)]
fn judge_length(
    world: &mut World,
    alloc: Global,
    whole: &Whole,
    laid: Laid,
    size: &Option<Box<Expr>>,
) -> Result<Laid, CheckEnd>
    requires { LayersBelow (length world.old.table.terms) laid.layers }
    ensures gives { Gives (sized_by whole.now (laid_of world.old.table.terms laid) (boxed_expr size.now)) (seen world.old) result (laid_of world.new.table.terms) (seen world.new) }
    ensures extends { OnOk result (Extends world.old.table world.new.table) }
    ensures valid { IfOk result (λ l. LayersBelow (length world.new.table.terms) l.layers) }
{
    let mut laid = laid;
    match size {
        None => {
            laid.put_unsized()?;
            Ok(laid)
        }
        Some(e) => {
            let x = judge(world, alloc, whole, true, e)?;
            laid.put_array(x.value)?;
            Ok(laid)
        }
    }
}

/// Parentheses around a declarator, with parameters.
#[cycle(walk)]
fn judge_function(
    world: &mut World,
    alloc: Global,
    whole: &Whole,
    fixed: bool,
    laid: Laid,
    params: &Items<Param>,
) -> Result<Laid, CheckEnd>
    requires { LayersBelow (length world.old.table.terms) laid.layers }
    ensures gives { Gives (function_around whole.now fixed (laid_of world.old.table.terms laid) (params_of params.now)) (seen world.old) result (laid_of world.new.table.terms) (seen world.new) }
    ensures extends { OnOk result (Extends world.old.table world.new.table) }
    ensures valid { IfOk result (λ l. LayersBelow (length world.new.table.terms) l.layers) }
{
    world.enter()?;
    let types = judge_params(world, alloc, whole, fixed, params)?;
    end_function(world, laid, types)
}

/// The types of parameters as they are used.
#[cycle(walk)]
pub fn judge_params(
    world: &mut World,
    alloc: Global,
    whole: &Whole,
    fixed: bool,
    params: &Items<Param>,
) -> Result<Items<TypeId>, CheckEnd>
    ensures gives { Gives (walk.judge_params whole.now fixed 0 (params_of params.now)) (seen world.old) result (λ ts. all_types world.new.table.terms ts) (seen world.new) }
    ensures extends { OnOk result (Extends world.old.table world.new.table) }
    ensures valid { IfOk result (λ ts. AllBelow (length world.new.table.terms) ts) }
{
    let mut types = Items::new(alloc);
    let mut place: u32 = 0;
    for param in params.as_slice() {
        let alone = stands_alone(params.as_slice(), place, param);
        match judge_param(world, alloc, whole, fixed, alone, place, param, &mut types) {
            Ok(()) => {}
            Err(end) => return Err(end),
        }
        place = next_place(place)?;
    }
    Ok(types)
}

/// One parameter more.
#[cycle(walk)]
fn judge_param(
    world: &mut World,
    alloc: Global,
    whole: &Whole,
    fixed: bool,
    alone: bool,
    place: u32,
    param: &Param,
    types: &mut Items<TypeId>,
) -> Result<(), CheckEnd>
    requires { AllBelow (length world.old.table.terms) types.old }
    ensures gives { Gives (gathered (all_types world.old.table.terms types.old) (param_of whole.now fixed alone place param.now.at (specs_of param.now.specs) (boxed_declarator param.now.declarator))) (seen world.old) result (λ _. all_types world.new.table.terms types.new) (seen world.new) }
    ensures extends { OnOk result (Extends world.old.table world.new.table) }
    ensures valid { OnOk result (AllBelow (length world.new.table.terms) types.new) }
{
    let base = judge_base(world, alloc, whole, fixed, param.at, &param.specs)?;
    let number = parameter_number(world, is_named(&param.declarator), place)?;
    let laid = judge_maybe(world, alloc, whole, fixed, param.at, &param.declarator)?;
    let at = at_of_maybe(param.at, &param.declarator);
    gather_param(world, alloc, alone, number, at, base, &laid, types)
}
