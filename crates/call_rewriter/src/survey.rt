//! Goes through a unit once, with no memory: which allocation functions its declarations hide, and which it calls.

ghost use Rattle.std.specs.Prelude.{◌≡◌, ◌&&◌, ◌||◌, map};
ghost use Rattle.c_tree.specs.View.{view, view_declarator, view_declaration, view_definition, view_enumerator_list, view_external, view_first, view_init, view_item, view_maybe_expr, view_maybe_init, view_record, view_enum, view_spec, view_stmt, view_type_name, view_unit};
ghost use Rattle.c_tree.specs.View.{boxed_declarator, boxed_expr, declarators_of, enumerators_of, exprs_of, fields_of, inits_of, items_of, params_of, specs_of};
ghost use Rattle.c_tree.specs.Bare.{bare, bare_block, bare_declaration, bare_declarator, bare_declarators, bare_enumerators, bare_external, bare_exprs, bare_fields, bare_first, bare_init, bare_inits, bare_item, bare_list, bare_maybe, bare_maybe_declarator, bare_maybe_init, bare_params, bare_specs, bare_stmt, bare_unit};
ghost use Rattle.call_rewriter.specs.Mentions as mentions;
ghost use Rattle.call_rewriter.specs.Mentions.{calls, declares, declares_function, enumerates};
ghost use Rattle.call_rewriter.specs.Tagged.{is_reserved};
ghost use Rattle.call_rewriter.specs.Survey.{Notes, NotesSpec, block_item_mentions, each, either, found, is_name_of, note, of_each, place_of, type_name_mentions};

use c_tree::{
    BlockItem, Declaration, Declarator, Definition, Enum, Enumerator, Expr, External, Field,
    ForFirst, Init, Item, Param, Record, Spec, Stmt, TypeName, Unit,
};
use tok_base::{Bytes, Items};

/// Where a part of a unit stands.
#[derive(Clone, Copy, Debug, PartialEq, Eq)]
pub struct Place {
    /// In an operand of `sizeof` or of the builtin.
    pub is_operand: bool,
    /// In a field of a record.
    pub is_field: bool,
}

impl Place {
    fn outside() -> Place
        ensures { place_of result ≡ mentions.outside }
    {
        Place {
            is_operand: false,
            is_field: false,
        }
    }

    /// An operand that stands here.
    fn operand(self) -> Place
        ensures { place_of result ≡ mentions.operand (place_of self) }
    {
        Place {
            is_operand: true,
            is_field: self.is_field,
        }
    }

    /// A field of a record that stands here.
    fn field(self) -> Place
        ensures { place_of result ≡ mentions.field (place_of self) }
    {
        Place {
            is_operand: self.is_operand,
            is_field: true,
        }
    }
}

/// A fact of each allocation function.
#[derive(Clone, Copy, Debug, PartialEq, Eq)]
pub struct Each {
    pub malloc: bool,
    pub calloc: bool,
    pub realloc: bool,
}

impl Each {
    /// Those that this is the name of.
    fn named(n: &[u8]) -> Each
        ensures { result ≡ each (is_name_of n.now) }
    {
        Each {
            malloc: n == b"malloc".as_slice(),
            calloc: n == b"calloc".as_slice(),
            realloc: n == b"realloc".as_slice(),
        }
    }

    fn all(is_so: bool) -> Each
        ensures { result ≡ each (λ _. is_so) }
    {
        Each {
            malloc: is_so,
            calloc: is_so,
            realloc: is_so,
        }
    }

    fn or(self, more: Each) -> Each
        ensures { result ≡ either self (of_each more) }
    {
        Each {
            malloc: self.malloc || more.malloc,
            calloc: self.calloc || more.calloc,
            realloc: self.realloc || more.realloc,
        }
    }
}

/// Which allocation functions are hidden by a declaration, and which are called.
#[derive(Clone, Copy, Debug, PartialEq, Eq)]
pub struct Survey {
    pub hidden: Each,
    pub called: Each,
}

impl Survey {
    fn with_function(self, n: &[u8]) -> Survey
        ensures { result ≡ note self (declares_function n.now) }
    {
        Survey {
            hidden: self.hidden.or(Each::all(is_reserved(n))),
            called: self.called,
        }
    }

    fn with_declarator(self, n: &[u8]) -> Survey
        ensures { result ≡ note self (declares n.now) }
    {
        Survey {
            hidden: self.hidden.or(Each::all(is_reserved(n)).or(Each::named(n))),
            called: self.called,
        }
    }

    fn with_enumerator(self, n: &[u8]) -> Survey
        ensures { result ≡ note self (enumerates n.now) }
    {
        Survey {
            hidden: self.hidden.or(Each::named(n)),
            called: self.called,
        }
    }

    fn with_call(self, n: &[u8]) -> Survey
        ensures { result ≡ note self (calls n.now) }
    {
        Survey {
            hidden: self.hidden,
            called: self.called.or(Each::named(n)),
        }
    }

    /// With the name of a declarator.
    fn with_declared(self, p: Place, is_function: bool, n: &Option<Bytes>) -> Survey
        ensures { Notes self result (mentions.with_declared p.is_field is_function n.now) }
    {
        if p.is_field {
            return self;
        }
        match n {
            Some(n) => {
                if is_function {
                    self.with_function(n.as_slice())
                } else {
                    self.with_declarator(n.as_slice())
                }
            }
            None => self,
        }
    }

    /// With a call of this expression.
    fn with_called(self, p: Place, f: &Expr) -> Survey
        ensures { Notes self result (mentions.with_called p.is_operand (mentions.name_of (bare (view f.now)))) }
    {
        if p.is_operand {
            return self;
        }
        match f {
            Expr::Paren(_, f) => self.with_called(p, f),
            Expr::Name(_, n) => self.with_call(n.as_slice()),
            _ => self,
        }
    }
}

/// It begins `__alloc_token_`.
fn is_reserved(n: &[u8]) -> bool
    ensures { result ≡ is_reserved n.now }
{
    n.starts_with(b"__alloc_token_")
}

#[cycle(survey)]
fn expr(s: Survey, p: Place, a: &Expr) -> Survey
    ensures { Notes s result (mentions.mentions (place_of p) (bare (view a.now))) }
{
    match a {
        Expr::Comma(_, a, b) => expr(expr(s, p, a), p, b),
        Expr::Assign(_, a, _, b) => expr(expr(s, p, a), p, b),
        Expr::Cond(_, c, a, b) => expr(expr(expr(s, p, c), p, a), p, b),
        Expr::Binary(_, a, _, b) => expr(expr(s, p, a), p, b),
        Expr::Cast(_, t, a) => expr(type_name(s, p, t), p, a),
        Expr::Prefix(_, _, a) => expr(s, p, a),
        Expr::SizeofExpr(_, a) => expr(s, p.operand(), a),
        Expr::SizeofType(_, t) => type_name(s, p.operand(), t),
        Expr::Index(_, a, b) => expr(expr(s, p, a), p, b),
        Expr::Call(_, f, xs) => exprs(expr(s.with_called(p, f), p, f), p, xs),
        Expr::Dot(_, a, _) => expr(s, p, a),
        Expr::Arrow(_, a, _) => expr(s, p, a),
        Expr::Post(_, a, _) => expr(s, p, a),
        Expr::Name(_, _) => s,
        Expr::Number(_, _) => s,
        Expr::Char(_, _) => s,
        Expr::Text(_, _) => s,
        Expr::Paren(_, a) => expr(s, p, a),
        Expr::Builtin(_, xs) => exprs(s, p.operand(), xs),
    }
}

#[cycle(survey)]
fn exprs(first: Survey, p: Place, xs: &Items<Expr>) -> Survey
    ensures { Notes first result (mentions.exprs_mentions (place_of p) (bare_exprs (exprs_of xs.now))) }
{
    let mut s = first;
    for a in xs.as_slice() {
        s = expr(s, p, a);
    }
    s
}

#[cycle(survey)]
fn maybe(s: Survey, p: Place, a: &Option<Box<Expr>>) -> Survey
    ensures { Notes s result (mentions.maybe_mentions (place_of p) (bare_maybe (boxed_expr a.now))) }
{
    match a {
        Some(a) => expr(s, p, a),
        None => s,
    }
}

#[cycle(survey)]
fn type_name(s: Survey, p: Place, t: &TypeName) -> Survey
    ensures { Notes s result (type_name_mentions (place_of p) t.now) }
{
    maybe_declarator(specs(s, p, &t.specs), p, &t.declarator)
}

#[cycle(survey)]
fn specs(first: Survey, p: Place, ss: &Items<Spec>) -> Survey
    ensures { Notes first result (mentions.specs_mentions (place_of p) (bare_specs (specs_of ss.now))) }
{
    let mut s = first;
    for spec in ss.as_slice() {
        s = specifier(s, p, spec);
    }
    s
}

#[cycle(survey)]
fn specifier(s: Survey, p: Place, spec: &Spec) -> Survey
    ensures { NotesSpec p s result (view_spec spec.now) }
{
    match spec {
        Spec::Keyword(_) => s,
        Spec::Typedef(_) => s,
        Spec::Attribute(_) => s,
        Spec::Record(r) => record(s, p, r),
        Spec::Enum(e) => enumeration(s, p, e),
    }
}

#[cycle(survey)]
fn record(s: Survey, p: Place, r: &Record) -> Survey
    ensures { NotesSpec p s result (view_record r.now) }
{
    match &r.fields {
        Some(fs) => fields(s, p.field(), fs),
        None => s,
    }
}

#[cycle(survey)]
fn fields(first: Survey, p: Place, fs: &Items<Field>) -> Survey
    ensures { Notes first result (mentions.fields_mentions (place_of p) (bare_fields (fields_of fs.now))) }
{
    let mut s = first;
    for f in fs.as_slice() {
        s = declarators(specs(s, p, &f.specs), p, &f.declarators);
    }
    s
}

#[cycle(survey)]
fn declarators(first: Survey, p: Place, ds: &Items<Declarator>) -> Survey
    ensures { Notes first result (mentions.declarators_mentions (place_of p) (bare_declarators (declarators_of ds.now))) }
{
    let mut s = first;
    for d in ds.as_slice() {
        s = declarator(s, p, false, d);
    }
    s
}

#[cycle(survey)]
fn enumeration(s: Survey, p: Place, e: &Enum) -> Survey
    ensures { NotesSpec p s result (view_enum e.now) }
{
    match &e.list {
        Some(l) => enumerators(s, p, &l.enumerators),
        None => s,
    }
}

#[cycle(survey)]
fn enumerators(first: Survey, p: Place, es: &Items<Enumerator>) -> Survey
    ensures { Notes first result (mentions.enumerators_mentions (place_of p) (bare_enumerators (enumerators_of es.now))) }
{
    let mut s = first;
    for e in es.as_slice() {
        s = maybe(s.with_enumerator(e.name.as_slice()), p, &e.value);
    }
    s
}

#[cycle(survey)]
fn maybe_declarator(s: Survey, p: Place, d: &Option<Box<Declarator>>) -> Survey
    ensures { Notes s result (mentions.maybe_declarator_mentions (place_of p) (bare_maybe_declarator (boxed_declarator d.now))) }
{
    match d {
        Some(d) => declarator(s, p, false, d),
        None => s,
    }
}

#[cycle(survey)]
fn declarator(s: Survey, p: Place, is_function: bool, d: &Declarator) -> Survey
    ensures { Notes s result (mentions.declarator_mentions (place_of p) is_function (bare_declarator (view_declarator d.now))) }
{
    match d {
        Declarator::PointerTo(_, _, d) => declarator(s, p, is_function, d),
        Declarator::Declared(_, n) => s.with_declared(p, is_function, n),
        Declarator::Group(_, d) => declarator(s, p, is_function, d),
        Declarator::ArrayOf(_, d, n) => maybe(declarator(s, p, is_function, d), p, n),
        Declarator::FunctionOf(_, d, ps) => params(declarator(s, p, is_function, d), p, ps),
    }
}

#[cycle(survey)]
fn params(first: Survey, p: Place, ps: &Items<Param>) -> Survey
    ensures { Notes first result (mentions.params_mentions (place_of p) (bare_params (params_of ps.now))) }
{
    let mut s = first;
    for x in ps.as_slice() {
        s = maybe_declarator(specs(s, p, &x.specs), p, &x.declarator);
    }
    s
}

/// An expression that is no part of another.
fn whole(s: Survey, a: &Expr) -> Survey
    ensures { Notes s result (mentions.mentions mentions.outside (bare (view a.now))) }
{
    expr(s, Place::outside(), a)
}

fn maybe_whole(s: Survey, a: &Option<Expr>) -> Survey
    ensures { Notes s result (mentions.maybe_mentions mentions.outside (bare_maybe (view_maybe_expr a.now))) }
{
    match a {
        Some(a) => whole(s, a),
        None => s,
    }
}

#[cycle(inits)]
fn init(s: Survey, i: &Init) -> Survey
    ensures { Notes s result (mentions.init_mentions (bare_init (view_init i.now))) }
{
    match i {
        Init::Expr(a) => whole(s, a),
        Init::Braces(_, is, _) => inits(s, is),
    }
}

#[cycle(inits)]
fn inits(first: Survey, is: &Items<Init>) -> Survey
    ensures { Notes first result (mentions.inits_mentions (bare_inits (inits_of is.now))) }
{
    let mut s = first;
    for i in is.as_slice() {
        s = init(s, i);
    }
    s
}

fn maybe_init(s: Survey, i: &Option<Init>) -> Survey
    ensures { Notes s result (mentions.maybe_init_mentions (bare_maybe_init (view_maybe_init i.now))) }
{
    match i {
        Some(i) => init(s, i),
        None => s,
    }
}

/// It is a name, perhaps in parentheses, or the place of an absent one.
fn is_name(d: &Declarator) -> bool
    ensures { result ≡ mentions.is_name (bare_declarator (view_declarator d.now)) }
{
    match d {
        Declarator::PointerTo(_, _, _) => false,
        Declarator::Declared(_, _) => true,
        Declarator::Group(_, d) => is_name(d),
        Declarator::ArrayOf(_, _, _) => false,
        Declarator::FunctionOf(_, _, _) => false,
    }
}

/// The layer around the name is a list of parameters.
fn is_function(d: &Declarator) -> bool
    ensures { result ≡ mentions.is_function (bare_declarator (view_declarator d.now)) }
{
    match d {
        Declarator::PointerTo(_, _, d) => is_function(d),
        Declarator::Declared(_, _) => false,
        Declarator::Group(_, d) => is_function(d),
        Declarator::ArrayOf(_, d, _) => is_function(d),
        Declarator::FunctionOf(_, d, _) => is_name(d) || is_function(d),
    }
}

fn item(s: Survey, at_file: bool, i: &Item) -> Survey
    ensures { Notes s result (mentions.item_mentions at_file (bare_item (view_item i.now))) }
{
    let is_function = at_file && is_function(&i.declarator);
    maybe_init(
        declarator(s, Place::outside(), is_function, &i.declarator),
        &i.init,
    )
}

fn items(first: Survey, at_file: bool, is: &Items<Item>) -> Survey
    ensures { Notes first result (mentions.items_mentions at_file (map bare_item (map view_item is.now))) }
{
    let mut s = first;
    for i in is.as_slice() {
        s = item(s, at_file, i);
    }
    s
}

fn declaration(s: Survey, at_file: bool, d: &Declaration) -> Survey
    ensures { Notes s result (mentions.declaration_mentions at_file (bare_declaration (view_declaration d.now))) }
{
    items(specs(s, Place::outside(), &d.specs), at_file, &d.items)
}

fn for_first(s: Survey, i: &ForFirst) -> Survey
    ensures { Notes s result (mentions.first_mentions (bare_first (view_first i.now))) }
{
    match i {
        ForFirst::Declaration(d) => declaration(s, false, d),
        ForFirst::Expr(a) => maybe_whole(s, a),
    }
}

#[cycle(statements)]
fn statement(s: Survey, x: &Stmt) -> Survey
    ensures { Notes s result (mentions.stmt_mentions (bare_stmt (view_stmt x.now))) }
{
    match x {
        Stmt::Block(b) => block(s, &b.items),
        Stmt::Expr(_, a) => maybe_whole(s, a),
        Stmt::If(_, c, x) => statement(whole(s, c), x),
        Stmt::IfElse(_, c, x, y) => statement(statement(whole(s, c), x), y),
        Stmt::While(_, c, x) => statement(whole(s, c), x),
        Stmt::Do(_, x, c) => whole(statement(s, x), c),
        Stmt::For(_, i, c, e, x) => {
            statement(maybe_whole(maybe_whole(for_first(s, i), c), e), x)
        }
        Stmt::Break(_) => s,
        Stmt::Continue(_) => s,
        Stmt::Return(_, a) => maybe_whole(s, a),
    }
}

#[cycle(statements)]
fn block(first: Survey, items: &Items<BlockItem>) -> Survey
    ensures { Notes first result (mentions.block_mentions (bare_block (items_of items.now))) }
{
    let mut s = first;
    for item in items.as_slice() {
        s = block_item(s, item);
    }
    s
}

#[cycle(statements)]
fn block_item(s: Survey, item: &BlockItem) -> Survey
    ensures { Notes s result (block_item_mentions item.now) }
{
    match item {
        BlockItem::Declaration(d) => declaration(s, false, d),
        BlockItem::Stmt(x) => statement(s, x),
    }
}

fn definition(s: Survey, d: &Definition) -> Survey
    ensures { Notes s result (mentions.external_mentions (bare_external (view_definition d.now))) }
{
    let s = specs(s, Place::outside(), &d.specs);
    block(
        declarator(s, Place::outside(), false, &d.declarator),
        &d.body.items,
    )
}

fn external(s: Survey, x: &External) -> Survey
    ensures { Notes s result (mentions.external_mentions (bare_external (view_external x.now))) }
{
    match x {
        External::Declaration(d) => declaration(s, true, d),
        External::Definition(d) => definition(s, d),
    }
}

/// Which allocation functions the unit hides, and which it calls.
pub fn survey_of(unit: &Unit) -> Survey
    ensures { result ≡ found (mentions.unit_mentions (bare_unit (view_unit unit.now))) }
{
    let none = Each::all(false);
    let mut s = Survey {
        hidden: none,
        called: none,
    };
    for x in unit.items.as_slice() {
        s = external(s, x);
    }
    s
}
