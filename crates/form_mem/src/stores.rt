ghost use Rattle.std.specs.Prelude.{◌≡◌, All, IfOk, length};
ghost use Rattle.form_outside.specs.Runs.{HasNoLiveRun};
ghost use Rattle.form_mem.specs.Store.{lengths_of};

use crate::MemStore;
use std::alloc::{AllocError, Global};

/// So many stores, without runs.
pub fn fresh_stores(alloc: Global, count: usize) -> Result<Vec<MemStore>, AllocError>
    ensures count { IfOk result (λ stores. length stores.items ≡ count) }
    ensures empty { IfOk result (λ stores. All (λ store. HasNoLiveRun (lengths_of store)) stores.items) }
{
    let mut stores = Vec::with_capacity(alloc, count)?;
    for _made in 0..count {
        stores.push(MemStore::new(alloc))?;
    }
    Ok(stores)
}
