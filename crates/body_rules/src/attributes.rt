//! The attributes that are known.

ghost use Rattle.std.specs.Prelude.{◌≡◌, ◌++◌, codes, map};
ghost use Rattle.c_tree.specs.Text.{same_text};
ghost use Rattle.c_tree.specs.View.{view_entry};
ghost use Rattle.c_rules.specs.Attributes as rules;
ghost use Rattle.body_rules.specs.Known.{is_known_first, is_known_second, is_known_third};

use c_tree::Entry;

#[tactic(auto, using(crate::proofs::Texts::same))]
fn is_text(name: &[u8], text: &[u8]) -> bool
    ensures { result ≡ same_text name.now text.now }
{
    name == text
}

/// Whether an attribute has this name, plain or between double underscores.
fn is_named(name: &[u8], plain: &[u8], marked: &[u8]) -> bool
    requires { marked.now ≡ codes "__" ++ (plain.now ++ codes "__") }
    ensures { result ≡ rules.is_name_of name.now plain.now }
{
    is_text(name, plain) || is_text(name, marked)
}

fn is_known_first(name: &[u8]) -> bool
    ensures { result ≡ is_known_first name.now }
{
    if is_named(name, b"no_sanitize", b"__no_sanitize__") {
        return true;
    }
    if is_named(
        name,
        b"disable_sanitizer_instrumentation",
        b"__disable_sanitizer_instrumentation__",
    ) {
        return true;
    }
    if is_named(name, b"unused", b"__unused__") {
        return true;
    }
    is_named(name, b"noinline", b"__noinline__")
}

fn is_known_second(name: &[u8]) -> bool
    ensures { result ≡ is_known_second name.now }
{
    if is_named(name, b"noreturn", b"__noreturn__") {
        return true;
    }
    if is_named(name, b"malloc", b"__malloc__") {
        return true;
    }
    if is_named(name, b"alloc_size", b"__alloc_size__") {
        return true;
    }
    is_named(name, b"nothrow", b"__nothrow__")
}

fn is_known_third(name: &[u8]) -> bool
    ensures { result ≡ is_known_third name.now }
{
    if is_named(name, b"leaf", b"__leaf__") {
        return true;
    }
    if is_named(name, b"pure", b"__pure__") {
        return true;
    }
    if is_named(name, b"nonnull", b"__nonnull__") {
        return true;
    }
    is_named(name, b"warn_unused_result", b"__warn_unused_result__")
}

/// Whether an attribute is known by its name, which may also be written between double underscores.
#[tactic(auto, using(crate::proofs::Known::attributes_are))]
pub fn is_attribute(name: &[u8]) -> bool
    ensures { result ≡ rules.is_attribute name.now }
{
    if is_known_first(name) {
        return true;
    }
    if is_known_second(name) {
        return true;
    }
    is_known_third(name)
}

/// 9: whether each entry of an attribute is known.
pub fn all_known(entries: &[Entry]) -> bool
    ensures { result ≡ rules.all_known (map view_entry entries.now) }
{
    for entry in entries {
        if !is_attribute(entry.name.as_slice()) {
            return false;
        }
    }
    true
}
