//! Nodes that are open, parts that were read, and how a node ends.

ghost use Rattle.std.specs.Prelude.{◌≡◌, ◌+◌, suc, IfOk, IfErr};
ghost use Rattle.c_reader.specs.MarkedParts as parts;
ghost use Rattle.c_symbol.specs.Nodes.{view_had, view_open};
ghost use Rattle.c_symbol.specs.declared.step.StepEnd.TheVariants.{NoMemory};

use crate::step::{StepEnd, following};
use c_tree::At;
use tok_base::Span;

/// A node that is open: the byte where it begins, how many nodes hold what stands in it (its own
/// included), and the greatest depth of its parts so far.
#[derive(Clone, Copy, Debug)]
pub struct Open {
    pub from: u32,
    pub level: u32,
    pub deep: u32,
}

/// A part that was read: the byte where it begins, and its depth.
#[derive(Clone, Copy, Debug)]
pub struct Had {
    pub from: u32,
    pub deep: u32,
}

impl Open {
    /// A node that begins at this byte, where so many nodes are open.
    pub fn at(level: u32, from: u32) -> Result<Open, StepEnd>
        ensures ok { IfOk result (λ o. view_open o ≡ parts.opens level from) }
        ensures err { IfErr result (λ e. e ≡ NoMemory) }
    {
        let level = following(level)?;
        Ok(Open {
            from,
            level,
            deep: 0,
        })
    }

    /// A node whose first part was read, where so many nodes are open.
    pub fn taking(level: u32, part: Had) -> Result<Open, StepEnd>
        ensures ok { IfOk result (λ o. view_open o ≡ parts.takes level (view_had part)) }
        ensures err { IfErr result (λ e. e ≡ NoMemory) }
    {
        let level = following(level)?;
        Ok(Open {
            from: part.from,
            level,
            deep: part.deep,
        })
    }

    /// The node with a part of this depth more.
    pub fn with_part(self, deep: u32) -> Open
        ensures { view_open result ≡ parts.with_part (view_open self) deep }
    {
        Open {
            from: self.from,
            level: self.level,
            deep: self.deep.max(deep),
        }
    }

    /// The depth of the whole node, where its last part has this depth.
    pub fn whole(self, deep: u32) -> Result<u32, StepEnd>
        ensures ok { IfOk result (λ d. d ≡ parts.whole (view_open self) deep) }
        ensures err { IfErr result (λ e. e ≡ NoMemory) }
    {
        following(self.deep.max(deep))
    }

    /// The whole node as a part.
    pub fn closed(self, deep: u32) -> Result<Had, StepEnd>
        ensures ok { IfOk result (λ h. view_had h ≡ parts.closed (view_open self) deep) }
        ensures err { IfErr result (λ e. e ≡ NoMemory) }
    {
        let deep = following(self.deep.max(deep))?;
        Ok(Had {
            from: self.from,
            deep,
        })
    }

    /// No unit that has this node, with its parts so far, is less deep.
    pub fn reach(self) -> u64
        ensures { result ≡ parts.reach (view_open self) }
    {
        u64::from(self.level) + u64::from(self.deep)
    }

    /// No unit that has a part of this depth there is less deep.
    pub fn above(self, deep: u32) -> u64
        ensures { result ≡ self.level + deep }
    {
        u64::from(self.level) + u64::from(deep)
    }
}

impl Had {
    /// A node of one token.
    pub fn leaf(from: u32) -> Had
        ensures { view_had result ≡ parts.leaf from }
    {
        Had { from, deep: 1 }
    }

    /// A node around this part alone.
    pub fn over(self) -> Result<Had, StepEnd>
        ensures ok { IfOk result (λ h. view_had h ≡ parts.over (view_had self)) }
        ensures err { IfErr result (λ e. e ≡ NoMemory) }
    {
        let deep = following(self.deep)?;
        Ok(Had {
            from: self.from,
            deep,
        })
    }
}

/// A node's place and number.
pub fn mark(from: u32, to: u32, id: u32) -> At
    ensures { result ≡ parts.mark from to id }
{
    At {
        span: Span {
            start: from,
            end: to,
        },
        id,
    }
}

/// The number of the next node, and the depth of the node that ends here, whose last part has depth `deep`.
pub fn ending(id: u32, o: Open, deep: u32) -> Result<(u32, u32), StepEnd>
    ensures ok { IfOk result (λ r. r ≡ (suc id, parts.whole (view_open o) deep)) }
    ensures err { IfErr result (λ e. e ≡ NoMemory) }
{
    let next = following(id)?;
    let whole = o.whole(deep)?;
    Ok((next, whole))
}
