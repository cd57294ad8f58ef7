//! Specifiers that were read, with one more.

ghost use Rattle.std.specs.Prelude.{◌≡◌, [], ◌∷◌, ◌++◌, IfOk, map};
ghost use Rattle.c_tree.specs.View as tree;
ghost use Rattle.c_tree.specs.Wf as wf;
ghost use Rattle.c_reader.specs.MarkedParts as parts;
ghost use Rattle.c_reader.specs.Parts as bare;
ghost use Rattle.c_reader.specs.Symbol.{keyword_word};
ghost use Rattle.c_symbol.specs.Seen.{view_keyword};
ghost use Rattle.c_symbol.specs.Shown.{shown_attribute, shown_spec};
ghost use Rattle.c_stack.specs.Views.{view_specs_read};
ghost use Rattle.c_symbol.specs.Nodes.{view_open};

use crate::inside::SpecsRead;
use c_held::Specs;
use c_symbol::node::Open;
use c_tree::{Attribute, Keyword, Spec};
use std::alloc::{AllocError, Global};

/// A specifier of one word.
#[tactic(auto, unfolding(c_symbol::specs::Shown::shown_spec))]
fn keyword(word: Keyword) -> Spec
    ensures { shown_spec result ≡ parts.keyword (tree.view_keyword word) }
{
    Spec::Keyword(word)
}

/// An attribute among specifiers.
#[tactic(auto, unfolding(c_symbol::specs::Shown::shown_spec, c_symbol::specs::Shown::shown_attribute))]
fn attribute_spec(attribute: Attribute) -> Spec
    ensures { shown_spec result ≡ parts.attribute (shown_attribute attribute) }
{
    Spec::Attribute(attribute)
}

/// The specifiers with one more.
fn with_spec(specs: Specs, s: Spec) -> Result<Specs, AllocError>
    ensures { IfOk result (λ ss. map shown_spec ss ≡ map shown_spec specs ++ shown_spec s ∷ []) }
{
    specs.with(s)
}

/// Whether it specifies a type (ISO/IEC 9899:2018, 6.7.2).
fn is_specifier(word: Keyword) -> bool
    ensures { result ≡ wf.is_specifier (keyword_word (view_keyword word)) }
{
    match word {
        Keyword::Void => true,
        Keyword::Bool => true,
        Keyword::Char => true,
        Keyword::Short => true,
        Keyword::Int => true,
        Keyword::Long => true,
        Keyword::Signed => true,
        Keyword::Unsigned => true,
        _ => false,
    }
}

fn is_typedef(word: Keyword) -> bool
    ensures { result ≡ bare.is_typedef (keyword_word (view_keyword word)) }
{
    match word {
        Keyword::Typedef => true,
        _ => false,
    }
}

fn word_spec(word: Keyword) -> Spec
    ensures { shown_spec result ≡ parts.keyword (keyword_word (view_keyword word)) }
{
    keyword(word)
}

impl SpecsRead {
    /// No specifiers yet.
    pub fn none(alloc: Global, node: Open) -> SpecsRead
        ensures { view_specs_read result ≡ parts.no_specs (view_open node) }
    {
        SpecsRead {
            node,
            specs: Specs::new(alloc),
            seen: false,
            typedef: false,
        }
    }

    /// With this keyword.
    pub fn with_keyword(self, word: Keyword) -> Result<SpecsRead, AllocError>
        ensures { IfOk result (λ ss. view_specs_read ss ≡ parts.add_keyword (view_specs_read self) (keyword_word (view_keyword word))) }
    {
        let seen = self.seen || is_specifier(word);
        let typedef = self.typedef || is_typedef(word);
        let specs = with_spec(self.specs, word_spec(word))?;
        Ok(SpecsRead {
            node: self.node,
            specs,
            seen,
            typedef,
        })
    }

    /// With a typedef name, a record or an enumeration of this depth.
    pub fn with_type(self, deep: u32, s: Spec) -> Result<SpecsRead, AllocError>
        ensures { IfOk result (λ ss. view_specs_read ss ≡ parts.add_type (view_specs_read self) deep (shown_spec s)) }
    {
        Ok(SpecsRead {
            node: self.node.with_part(deep),
            specs: with_spec(self.specs, s)?,
            seen: true,
            typedef: self.typedef,
        })
    }

    /// With an attribute of this depth.
    pub fn with_attribute(self, deep: u32, a: Attribute) -> Result<SpecsRead, AllocError>
        ensures { IfOk result (λ ss. view_specs_read ss ≡ parts.add_attribute (view_specs_read self) deep (shown_attribute a)) }
    {
        let seen = self.seen;
        let typedef = self.typedef;
        Ok(SpecsRead {
            node: self.node.with_part(deep),
            specs: with_spec(self.specs, attribute_spec(a))?,
            seen,
            typedef,
        })
    }
}
