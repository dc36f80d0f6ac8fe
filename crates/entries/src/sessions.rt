// The sessions of an entry, by its time in force, its kind, the phase in which it is entered and its
// designation.
ghost use Rattle.std.specs.Prelude.{◌≡◌};
ghost use Rattle.entries.specs.Cases.{is_conditional};
ghost use Rattle.entries.specs.Sessions.{running, sessions_of};

use crate::checked::CheckedEntry;
use orders::kind::Kind;
use orders::phase::Phase;
use orders::sessions::Sessions;
use orders::time::TimeInForce;

// The session that runs in a phase, alone, or none.
pub fn running(phase: Phase) -> Sessions
    ensures { result ≡ running phase }
{
    Sessions {
        opening: matches!(phase, Phase::Opening),
        core: matches!(phase, Phase::Core),
        late: matches!(phase, Phase::Late),
    }
}

// Whether a kind sets a condition on the size of a fill and may rest with it: A or M.
pub fn is_conditional(kind: Kind) -> bool
    ensures { result ≡ is_conditional kind }
{
    matches!(kind, Kind::AllOrNone | Kind::MinimumQuantity)
}

impl CheckedEntry {
    // The sessions of the entry if it is entered in the phase.
    pub fn sessions(&self, phase: Phase) -> Sessions
        ensures { result ≡ sessions_of self.now phase }
    {
        match (self.time, self.terms.kind, phase, self.designation) {
            (_, Kind::FillOrKill, phase, _) => running(phase),
            (TimeInForce::Day, _, _, Some(designated)) => designated,
            (TimeInForce::Day, kind, Phase::Opening, None) if is_conditional(kind) => Sessions {
                opening: true,
                core: true,
                late: false,
            },
            _ => Sessions {
                opening: false,
                core: true,
                late: false,
            },
        }
    }
}
