//! What a call of a function has open at an instruction.
ghost use Rattle.std.specs.Prelude.{◌≡◌, ◌+◌, ◌<◌, ◌^◌};
ghost use Rattle.k_code.specs.Balances.{IsBelow, is_met as is_met_by, home_met as home_met_by, left_open, nothing_open};

use crate::{Do, Home};

/// What a call of a function has saved, made and entered since the function's entry and not yet given up.
#[derive(Clone, Copy, Debug, PartialEq, Eq)]
pub struct Balance {
    /// Saved control sources.
    pub saved: u64,
    /// Live objects.
    pub objects: u64,
    /// Open regions, but for the function's own.
    pub regions: u64,
}

impl Balance {
    /// Nothing, as at a function's entry.
    pub(crate) fn nothing() -> Balance
        ensures { result ≡ nothing_open }
    {
        Balance {
            saved: 0,
            objects: 0,
            regions: 0,
        }
    }

    /// Whether all is there that an instruction takes away or names.
    #[tactic(auto, unfolding(crate::specs::Balances::is_met))]
    pub(crate) fn meets(self, act: &Do) -> bool
        ensures { result ≡ is_met_by act.now self }
    {
        match act {
            Do::Keep => 0 < self.saved,
            Do::Back => 0 < self.saved,
            Do::Restore => 0 < self.saved,
            Do::Exit => 0 < self.regions,
            Do::ObjectsClose { count } => u64::from(*count) <= self.objects,
            Do::Fill { local, .. } => u64::from(*local) < self.objects,
            Do::Address { home, .. } => self.has(*home),
            _ => true,
        }
    }

    /// Whether the object is one of the program's, or there among the live call's.
    fn has(self, home: Home) -> bool
        ensures { result ≡ home_met_by home self }
    {
        match home {
            Home::File(_) => true,
            Home::Local(number) => u64::from(number) < self.objects,
        }
    }

    /// What an instruction leaves.
    #[tactic(auto, unfolding(crate::specs::Balances::left_open))]
    pub(crate) fn after(self, act: &Do) -> Balance
        requires { IsBelow (2 ^ 64) (left_open act.now self) }
        ensures { result ≡ left_open act.now self }
    {
        match act {
            Do::Save => Balance {
                saved: self.saved + 1,
                ..self
            },
            Do::Keep => Balance {
                saved: self.saved.saturating_sub(1),
                ..self
            },
            Do::Back => Balance {
                saved: self.saved.saturating_sub(1),
                ..self
            },
            Do::ObjectOpen { .. } => Balance {
                objects: self.objects + 1,
                ..self
            },
            Do::ObjectsClose { count } => Balance {
                objects: self.objects.saturating_sub(u64::from(*count)),
                ..self
            },
            Do::Enter { .. } => Balance {
                regions: self.regions + 1,
                ..self
            },
            Do::Exit => Balance {
                regions: self.regions.saturating_sub(1),
                ..self
            },
            _ => self,
        }
    }
}
