// Why a function has no layout.
ghost use Rattle.std.specs.Prelude.{◌≡◌};

use prof_base::Memory;

/// Why a function has no inlined layout.
#[derive(Clone, Copy, Debug, PartialEq, Eq)]
pub enum LayoutRefused {
    /// It would have this number of slots, which is more than [`Layout::MAX_SLOTS`](code_event::Layout::MAX_SLOTS).
    TooLarge { slots: u64 },
    /// Out of memory.
    Memory,
}

impl From<Memory> for LayoutRefused {
    ghost use Rattle.code_layout.specs.declared.refused.LayoutRefused.{LayoutRefused};

    ghost from_gives = { λ _ e. e ≡ LayoutRefused.Memory };

    fn from(_: Memory) -> LayoutRefused {
        LayoutRefused::Memory
    }
}
