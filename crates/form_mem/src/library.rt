ghost use Rattle.std.specs.Prelude.{◌≡◌, ◌≢◌, ◌↔◌, ◌≤◌, [], ◌∷◌, ◌++◌, Some, Err, IsTrue, OnOk, OnErr, IfOk, IfSome, length};
ghost use Rattle.std.specs.FinMap as map;
ghost use Rattle.form_outside.specs.Faults.{HasRisen};
ghost use Rattle.form_outside.specs.Texts.{text_of, IsFetched};
ghost use Rattle.form_mem.specs.Calls.{is_listed, one_more};
ghost use Rattle.form_mem.specs.Library.{held, failing_fetches, fetch_count, library_faults, held_surely};

use crate::calls::Calls;
use crate::text_map::TextMap;
use form_outside::{Library, LibraryErr};
use std::alloc::{AllocError, Global};

/// A library in memory, which can be told to fail.
#[derive(Drop)]
pub struct MemLibrary {
    texts: TextMap,
    fetches: Calls,
    faults: u64,
}

impl MemLibrary {
    /// A library with no text, of which no call is to fail.
    pub fn new(alloc: Global) -> Self
        ensures texts { held result ≡ map.empty }
        ensures failing { failing_fetches result ≡ [] }
        ensures calls { fetch_count result ≡ 0 }
        ensures faults { library_faults result ≡ 0 }
    {
        MemLibrary {
            texts: TextMap::new(alloc),
            fetches: Calls::new(alloc),
            faults: 0,
        }
    }

    /// Takes a text, in the place of one of that name.
    pub fn insert(&mut self, name: &str, text: &[u8]) -> Result<(), AllocError>
        ensures ok { OnOk result (held self.new ≡ map.insert (held self.old) name.now text.now) }
        ensures err { OnErr result (held self.new ≡ held self.old) }
        ensures failing { failing_fetches self.new ≡ failing_fetches self.old }
        ensures calls { fetch_count self.new ≡ fetch_count self.old }
        ensures faults { library_faults self.new ≡ library_faults self.old }
    {
        self.texts.insert(name, text)
    }

    /// Has a call of `fetch` fail. The first that is ever made is call 1.
    pub fn fail_at(&mut self, call: u64) -> Result<(), AllocError>
        ensures ok { OnOk result (failing_fetches self.new ≡ failing_fetches self.old ++ call ∷ []) }
        ensures err { OnErr result (failing_fetches self.new ≡ failing_fetches self.old) }
        ensures texts { held self.new ≡ held self.old }
        ensures calls { fetch_count self.new ≡ fetch_count self.old }
        ensures faults { library_faults self.new ≡ library_faults self.old }
    {
        self.fetches.fail_at(call)
    }
}

impl Library for MemLibrary {
    ghost texts = { λ library. Some (held library) };

    ghost faults = { library_faults };

    /// Fails exactly at the calls that are to fail.
    fn fetch(&mut self, alloc: Global, name: &str, max: u64) -> Result<Option<Vec<u8>>, LibraryErr>
        ensures fetched { IsFetched (text_of (held self.old) name.now) max result }
        ensures within { IfOk result (λ found. IfSome found (λ text. length text.items ≤ max)) }
        ensures same { held self.new ≡ held self.old }
        ensures fails { (result ≡ Err LibraryErr.Failed)
            ↔ IsTrue (is_listed (failing_fetches self.old) (fetch_count self.new)) }
        ensures risen { result ≡ Err LibraryErr.Failed →
            library_faults self.new ≡ one_more (library_faults self.old) }
        ensures not_risen { result ≢ Err LibraryErr.Failed → library_faults self.new ≡ library_faults self.old }
        ensures never_falls { library_faults self.old ≤ library_faults self.new }
        ensures failing { failing_fetches self.new ≡ failing_fetches self.old }
        ensures calls { fetch_count self.new ≡ one_more (fetch_count self.old) }
    {
        if self.fetches.next() {
            self.faults = self.faults.saturating_add(1);
            return Err(LibraryErr::Failed);
        }
        self.texts.copy_of(alloc, name, max)
    }
}

/// A library in memory that never fails.
#[derive(Drop)]
pub struct SureLibrary {
    texts: TextMap,
}

impl SureLibrary {
    /// A library with no text.
    pub fn new(alloc: Global) -> Self
        ensures { held_surely result ≡ map.empty }
    {
        SureLibrary {
            texts: TextMap::new(alloc),
        }
    }

    /// Takes a text, in the place of one of that name.
    pub fn insert(&mut self, name: &str, text: &[u8]) -> Result<(), AllocError>
        ensures ok { OnOk result (held_surely self.new ≡ map.insert (held_surely self.old) name.now text.now) }
        ensures err { OnErr result (held_surely self.new ≡ held_surely self.old) }
    {
        self.texts.insert(name, text)
    }
}

impl Library for SureLibrary {
    ghost texts = { λ library. Some (held_surely library) };

    ghost faults = { λ _. 0 };

    fn fetch(&mut self, alloc: Global, name: &str, max: u64) -> Result<Option<Vec<u8>>, LibraryErr>
        ensures fetched { IsFetched (text_of (held_surely self.old) name.now) max result }
        ensures within { IfOk result (λ found. IfSome found (λ text. length text.items ≤ max)) }
        ensures same { held_surely self.new ≡ held_surely self.old }
        ensures sure { result ≢ Err LibraryErr.Failed }
    {
        self.texts.copy_of(alloc, name, max)
    }
}
