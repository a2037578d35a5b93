ghost use Rattle.std.specs.Prelude.{◌≡◌, ◌≢◌, Err, OnOk, OnErr};
ghost use Rattle.std.specs.FinMap as map;
ghost use Rattle.form_outside.specs.Texts.{text_of, IsFetched};
ghost use Rattle.form_mem.specs.TextMap.{kept_in};

use form_outside::LibraryErr;
use std::alloc::{AllocError, Global};
use std::collections::BTreeMap;

/// Texts by name.
#[derive(Drop)]
pub(crate) struct TextMap {
    alloc: Global,
    entries: BTreeMap<String, Vec<u8>>,
}

impl TextMap {
    pub fn new(alloc: Global) -> Self
        ensures { kept_in result ≡ map.empty }
    {
        TextMap {
            alloc,
            entries: BTreeMap::new(alloc),
        }
    }

    /// Keeps a text, in the place of one of that name.
    pub fn insert(&mut self, name: &str, text: &[u8]) -> Result<(), AllocError>
        ensures ok { OnOk result (kept_in self.new ≡ map.insert (kept_in self.old) name.now text.now) }
        ensures err { OnErr result (kept_in self.new ≡ kept_in self.old) }
    {
        let name = String::from_str(self.alloc, name)?;
        let text = Vec::from_slice(self.alloc, text)?;
        self.entries.insert(name, text)?;
        Ok(())
    }

    /// A copy of a text: none where there is no text of that name, and `TooLong` where it has more than `max` bytes.
    pub fn copy_of(
        &self,
        alloc: Global,
        name: &str,
        max: u64,
    ) -> Result<Option<Vec<u8>>, LibraryErr>
        ensures fetched { IsFetched (text_of (kept_in self.now) name.now) max result }
        ensures sure { result ≢ Err LibraryErr.Failed }
    {
        let Some(text) = self.entries.get(name) else {
            return Ok(None);
        };
        if text.len() as u64 > max {
            return Err(LibraryErr::TooLong);
        }
        Ok(Some(Vec::from_slice(alloc, text.as_slice())?))
    }
}
