ghost use Rattle.std.specs.Prelude.{◌≡◌};
ghost use Rattle.form_base.specs.Settings.{default_settings};

/// The numbers that a command line sets.
#[derive(Clone, Copy, Debug, PartialEq, Eq)]
pub struct Settings {
    /// How many workers there are beside the master: 1 to 16.
    pub workers: u64,
    /// Terms in a bucket: 1 to 100,000.
    pub bucket: u64,
    /// Terms in a sort buffer: 2 to 1,000,000.
    pub buffer: u64,
    /// Runs that are merged at once: 2 to 256.
    pub fan: u64,
    /// Terms that buckets, buffers and merges hold together: 1 to 1,000,000,000.
    pub hold: u64,
    /// Turns of a `repeat` on one path: 1 to 1,000,000.
    pub max_repeat: u64,
    /// Terms of one list: 1 to 4,294,967,295.
    pub max_expand: u64,
    /// Terms of one result: 1 to 1,099,511,627,776.
    pub max_terms: u64,
}

impl Default for Settings {
    ghost is_default = { λ s. s ≡ default_settings };

    /// What holds where the command line says nothing: one worker.
    fn default() -> Self {
        Settings {
            workers: 1,
            bucket: 500,
            buffer: 20_000,
            fan: 16,
            hold: 44_000,
            max_repeat: 10_000,
            max_expand: 10_000_000,
            max_terms: 1_099_511_627_776,
        }
    }
}
