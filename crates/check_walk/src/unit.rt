//! What a unit has, wherever it stands, as the walk takes it.

ghost use Rattle.std.specs.Prelude.{◌≡◌, ◌++◌, map, OnOk, IfOk};
ghost use Rattle.c_tree.specs.View.{view_external};
ghost use Rattle.c_rules.specs.Unit as unit;

use body_rules::{bodies_in, objects_in};
use c_tree::External;
use check_expressions::Whole;
use std::alloc::Global;
use tok_base::{Bytes, Items, NoMemory};

/// Functions of these names have bodies.
fn put_bodies(whole: &mut Whole, mut names: Items<Bytes>) -> Result<(), NoMemory>
    ensures { OnOk result (whole.new ≡ record whole.old { bodies = names ++ whole.old.bodies }) }
{
    while let Some(name) = names.pop() {
        match whole.put_body(name) {
            Ok(()) => {}
            Err(end) => return Err(end),
        }
    }
    Ok(())
}

/// File scope defines objects of these names.
fn put_objects(whole: &mut Whole, mut names: Items<Bytes>) -> Result<(), NoMemory>
    ensures { OnOk result (whole.new ≡ record whole.old { objects = names ++ whole.old.objects }) }
{
    while let Some(name) = names.pop() {
        match whole.put_object(name) {
            Ok(()) => {}
            Err(end) => return Err(end),
        }
    }
    Ok(())
}

/// The functions with a body, and the objects that file scope defines.
#[tactic(auto, using(crate::proofs::Names::append_none))]
pub fn whole_of(alloc: Global, externals: &[External]) -> Result<Whole, NoMemory>
    ensures { IfOk result (λ w. w ≡ unit.whole_of (map view_external externals.now)) }
{
    let bodies = bodies_in(alloc, externals)?;
    let objects = objects_in(alloc, externals)?;
    let mut whole = Whole::new(alloc)?;
    put_bodies(&mut whole, bodies)?;
    put_objects(&mut whole, objects)?;
    Ok(whole)
}
