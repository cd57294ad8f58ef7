//! The unit with its sites tagged.

ghost use Rattle.std.specs.Prelude.{◌≡◌, ◌≤◌, IfOk};
ghost use Rattle.c_tree.specs.View.{view_unit};
ghost use Rattle.c_tree.specs.Bare.{bare_unit};
ghost use Rattle.call_rewriter.specs.Plans.{hooks_seen};
ghost use Rattle.call_rewriter.specs.Survey.{each};
ghost use Rattle.call_rewriter.specs.Tagger.{hooks_left, used};
ghost use Rattle.call_rewriter.specs.Tagged.{tagged};

use crate::plan::Plan;
use crate::prototypes::prototypes;
use crate::site::Hooks;
use crate::survey::{Each, Survey, survey_of};
use crate::tag_unit::externals;
use c_held as held;
use c_tree::Unit;
use std::alloc::Global;
use tok_base::NoMemory;

impl Survey {
    /// For each allocation function, whether direct calls of it are sites.
    fn hooks(self) -> Hooks
        ensures { hooks_seen result ≡ hooks_left self }
    {
        Hooks {
            malloc: !self.hidden.malloc,
            calloc: !self.hidden.calloc,
            realloc: !self.hidden.realloc,
        }
    }

    /// The allocation functions that some site calls.
    fn used(self) -> Each
        ensures { result ≡ each (used self) }
    {
        Each {
            malloc: !self.hidden.malloc && self.called.malloc,
            calloc: !self.hidden.calloc && self.called.calloc,
            realloc: !self.hidden.realloc && self.called.realloc,
        }
    }
}

/// The unit in which each site calls its entry point with its token, the k-th site with k modulo `max`, behind the
/// prototypes of the entry points that are used. What is copied keeps its place; what is added to a call has the
/// call's, and a prototype none.
pub fn tagged_unit(alloc: Global, unit: &Unit, max: u32) -> Result<held::Unit, NoMemory>
    requires least { 1 ≤ max }
    requires greatest { max ≤ 65536 }
    ensures { IfOk result (λ v. bare_unit (view_unit v) ≡ tagged max (bare_unit (view_unit unit.now))) }
{
    let survey = survey_of(unit);
    let mut items = prototypes(alloc, survey.used())?;
    let plan = Plan {
        hooks: survey.hooks(),
        max,
    };
    let mut k = 0;
    let more = externals(alloc, plan, &mut k, &unit.items)?;
    items.append(more)?;
    Ok(held::Unit::new(Unit {
        items: items.open(),
    }))
}
