ghost use Rattle.std.specs.Prelude.{◌≡◌, [], ◌∷◌, ◌++◌, OnOk, OnErr};
ghost use Rattle.form_mem.specs.Calls.{is_listed, one_more};

use std::alloc::{AllocError, Global};

/// Calls of one kind: how many there were, and which are to fail. The first is call 1.
#[derive(Drop)]
pub(crate) struct Calls {
    failing: Vec<u64>,
    count: u64,
}

impl Calls {
    pub fn new(alloc: Global) -> Self
        ensures none_fails { result.failing.items ≡ [] }
        ensures none_yet { result.count ≡ 0 }
    {
        Calls {
            failing: Vec::new(alloc),
            count: 0,
        }
    }

    /// Has a call fail.
    pub fn fail_at(&mut self, call: u64) -> Result<(), AllocError>
        ensures ok { OnOk result (self.new.failing.items ≡ self.old.failing.items ++ call ∷ []) }
        ensures err { OnErr result (self.new.failing.items ≡ self.old.failing.items) }
        ensures count { self.new.count ≡ self.old.count }
    {
        self.failing.push(call)?;
        Ok(())
    }

    /// Counts a call, and says whether it is to fail.
    pub fn next(&mut self) -> bool
        ensures fails { result ≡ is_listed self.old.failing.items self.new.count }
        ensures failing { self.new.failing.items ≡ self.old.failing.items }
        ensures count { self.new.count ≡ one_more self.old.count }
    {
        self.count = self.count.saturating_add(1);
        self.failing.contains(&self.count)
    }
}
