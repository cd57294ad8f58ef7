//! The allocation functions, and which calls of them are tagged.

ghost use Rattle.std.specs.Prelude.{◌≡◌, option_map};
ghost use Rattle.call_rewriter.specs.Tagged as tagged;
ghost use Rattle.call_rewriter.specs.Plans.{callee_seen, hooks_seen};

/// A function that allocates (ISO/IEC 9899:2018, 7.22.3).
#[derive(Clone, Copy, Debug, PartialEq, Eq)]
pub enum Callee {
    Malloc,
    Calloc,
    Realloc,
}

/// For each function that allocates, whether direct calls of it are tagged.
#[derive(Clone, Copy, Debug, PartialEq, Eq)]
pub struct Hooks {
    pub malloc: bool,
    pub calloc: bool,
    pub realloc: bool,
}

impl Callee {
    /// The function of this name.
    pub fn named(n: &[u8]) -> Option<Callee>
        ensures { option_map callee_seen result ≡ tagged.callee_of n.now }
    {
        if n == b"malloc".as_slice() {
            Some(Callee::Malloc)
        } else if n == b"calloc".as_slice() {
            Some(Callee::Calloc)
        } else if n == b"realloc".as_slice() {
            Some(Callee::Realloc)
        } else {
            None
        }
    }

    /// The name of its entry point, which takes a token as last argument.
    pub fn entry_point(self) -> &'static [u8]
        ensures { result.now ≡ tagged.entry_point (callee_seen self) }
    {
        match self {
            Callee::Malloc => b"__alloc_token_malloc",
            Callee::Calloc => b"__alloc_token_calloc",
            Callee::Realloc => b"__alloc_token_realloc",
        }
    }
}

impl Hooks {
    fn has(&self, callee: Callee) -> bool
        ensures { result ≡ tagged.hook (hooks_seen self.now) (callee_seen callee) }
    {
        match callee {
            Callee::Malloc => self.malloc,
            Callee::Calloc => self.calloc,
            Callee::Realloc => self.realloc,
        }
    }

    /// The function that a call of this name is a site of.
    pub fn site_of(&self, n: &[u8]) -> Option<Callee>
        ensures { option_map callee_seen result ≡ tagged.site_of (hooks_seen self.now) n.now }
    {
        match Callee::named(n) {
            Some(callee) => { if self.has(callee) { Some(callee) } else { None } }
            None => None,
        }
    }
}
