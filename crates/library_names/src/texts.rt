//! Texts that are compared.

ghost use Rattle.std.specs.Prelude.{◌≡◌};
ghost use Rattle.c_tree.specs.Text.{same_text};

/// Whether two texts are the same.
#[tactic(auto, using(crate::proofs::Same::same))]
pub fn is_text(name: &[u8], text: &[u8]) -> bool
    ensures { result ≡ same_text name.now text.now }
{
    name == text
}
