//! What a declarator adds to a type.

ghost use Rattle.std.specs.Prelude.{◌≡◌, ◌<◌, [], List, ℕ, OnOk};
ghost use Rattle.c_types.specs.declared.terms.Term.{Term};
ghost use Rattle.c_types.specs.Table.{AllBelow};
ghost use Rattle.c_rules.specs.Declarators as rules;
ghost use Rattle.c_rules.specs.Walk.{laid_more};
ghost use Rattle.c_world.specs.Inner.{NamesBelow};
ghost use Rattle.declarator_rules.specs.Layers.{LayersBelow, all_names, all_types, laid_of};

use c_tree::At;
use c_types::TypeId;
use c_world::NameEntry;
use constant_values::Constant;
use std::alloc::Global;
use tok_base::{Bytes, Items, NoMemory};

/// A layer of a declarator.
#[derive(Drop)]
pub enum Layer {
    /// `*` with qualifiers: const is 1, volatile 2, restrict 4.
    Pointer(u8),
    /// `[]` with a length.
    Array(Constant),
    /// `[]` without one.
    Unsized,
    /// `()` with the types of the parameters as they are used (6.7.6.3), and the names that are declared
    /// between its parentheses, the newest first.
    Function(Items<TypeId>, Items<NameEntry>),
}

/// A declarator that was read: its name and that node, and its layers, the one next to the name first.
#[derive(Drop)]
pub struct Laid {
    pub name: Option<Bytes>,
    pub name_at: At,
    pub layers: Items<Layer>,
}

impl Laid {
    /// The bare name, or the place of an absent one.
    pub fn bare(alloc: Global, name: Option<Bytes>, name_at: At) -> Laid
        ensures { result ≡ record { name = name; name_at = name_at; layers = [] } }
    {
        Laid {
            name,
            name_at,
            layers: Items::new(alloc),
        }
    }

    /// A `*` stands around it.
    #[tactic(auto, using(crate::proofs::Growing::below_more, crate::proofs::Growing::layers_more))]
    pub fn put_pointer(&mut self, qualifiers: u8) -> Result<(), NoMemory>
        ensures is { OnOk result ((ts : List Term) → laid_of ts self.new ≡ laid_more (rules.pointer qualifiers) (laid_of ts self.old)) }
        ensures valid { OnOk result ((n : ℕ) → LayersBelow n self.old.layers → qualifiers < 8 → LayersBelow n self.new.layers) }
    {
        self.layers.push(Layer::Pointer(qualifiers))?;
        Ok(())
    }

    /// Brackets with a length stand around it.
    #[tactic(auto, using(crate::proofs::Growing::below_more, crate::proofs::Growing::layers_more))]
    pub fn put_array(&mut self, length: Constant) -> Result<(), NoMemory>
        ensures is { OnOk result ((ts : List Term) → laid_of ts self.new ≡ laid_more (rules.array length) (laid_of ts self.old)) }
        ensures valid { OnOk result ((n : ℕ) → LayersBelow n self.old.layers → LayersBelow n self.new.layers) }
    {
        self.layers.push(Layer::Array(length))?;
        Ok(())
    }

    /// Brackets without a length stand around it.
    #[tactic(auto, using(crate::proofs::Growing::below_more, crate::proofs::Growing::layers_more))]
    pub fn put_unsized(&mut self) -> Result<(), NoMemory>
        ensures is { OnOk result ((ts : List Term) → laid_of ts self.new ≡ laid_more rules.unsized (laid_of ts self.old)) }
        ensures valid { OnOk result ((n : ℕ) → LayersBelow n self.old.layers → LayersBelow n self.new.layers) }
    {
        self.layers.push(Layer::Unsized)?;
        Ok(())
    }

    /// Parentheses with parameters of these types and these names stand around it.
    #[tactic(auto, using(crate::proofs::Growing::below_more, crate::proofs::Growing::layers_more))]
    pub fn put_function(
        &mut self,
        parameters: Items<TypeId>,
        names: Items<NameEntry>,
    ) -> Result<(), NoMemory>
        ensures is { OnOk result ((ts : List Term) → laid_of ts self.new ≡ laid_more (rules.function (all_types ts parameters) (all_names ts names)) (laid_of ts self.old)) }
        ensures valid { OnOk result ((n : ℕ) → LayersBelow n self.old.layers → AllBelow n parameters → NamesBelow n names → LayersBelow n self.new.layers) }
    {
        self.layers.push(Layer::Function(parameters, names))?;
        Ok(())
    }
}
