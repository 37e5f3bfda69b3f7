//! The counts of a running program's state: the operations that are left, the live objects, and the live calls.
ghost use Rattle.std.specs.Prelude.{◌≡◌, length};

use super::RunState;

impl<'a> RunState<'a> {
    /// How many operations may still be made.
    #[inline(always)]
    pub fn left(&self) -> u64
        ensures { result ≡ self.now.left }
    {
        self.budget.saturating_sub(self.made)
    }

    /// How many operations were made.
    #[inline(always)]
    pub fn made(&self) -> u64
        ensures { result ≡ self.now.made }
    {
        self.made
    }

    /// How many objects are live.
    #[inline(always)]
    pub fn live_objects(&self) -> u64
        ensures { result ≡ length self.now.memory.live }
    {
        self.objects.live_objects()
    }

    /// How many calls are live.
    pub fn calls(&self) -> u64
        ensures { result ≡ self.now.calls }
    {
        self.calls
    }

    /// The sizes of the live calls together.
    pub fn size(&self) -> u64
        ensures { result ≡ self.now.size }
    {
        self.size
    }

    /// So many calls are live from now on, with these sizes together.
    pub fn set_calls(&mut self, calls: u64, size: u64)
        ensures { self.new ≡ record self.old { calls = calls; size = size } }
    {
        self.calls = calls;
        self.size = size;
    }
}
