// Patterns, which say what packets are forwarded or stored.
ghost use Rattle.std.specs.Prelude.{◌≡◌};
ghost use Rattle.control_defs.specs.Lists.{may_precede};
ghost use Rattle.control_defs.specs.Patterns.{covers, pattern_covers};

use crate::keys::Key;

/// A set of keys. An APID in a pattern is at most 2,047. Patterns are ordered by form, as they
/// stand here, then by their fields from the left.
#[derive(Clone, Copy, Debug, Default, PartialEq, Eq, PartialOrd, Ord)]
pub enum Pattern {
    /// Every key.
    #[default]
    Every,
    /// The keys of an APID.
    App(u16),
    /// The keys of an APID and a service type.
    Service(u16, u8),
    /// The keys of an APID, a service type and a message subtype.
    Kind(u16, u8, u8),
}

impl Pattern {
    /// Whether the key is in the set.
    pub fn covers(&self, key: &Key) -> bool
        ensures { result ≡ covers self.now key.now }
    {
        match *self {
            Pattern::Every => true,
            Pattern::App(apid) => key.apid == apid,
            Pattern::Service(apid, service) => {
                key.apid == apid && key.kind.is_some_and(|kind| kind.0 == service)
            }
            Pattern::Kind(apid, service, subtype) => {
                key.apid == apid && key.kind == Some((service, subtype))
            }
        }
    }

    /// Whether each key in the other set is in this one.
    pub fn covers_pattern(&self, other: &Pattern) -> bool
        ensures { result ≡ pattern_covers self.now other.now }
    {
        match (*self, *other) {
            (Pattern::Every, _) => true,
            (
                Pattern::App(apid),
                Pattern::App(other_apid)
                | Pattern::Service(other_apid, _)
                | Pattern::Kind(other_apid, _, _),
            ) => { apid == other_apid }
            (
                Pattern::Service(apid, service),
                Pattern::Service(other_apid, other_service)
                | Pattern::Kind(other_apid, other_service, _),
            ) => { apid == other_apid && service == other_service }
            (Pattern::Kind(..), Pattern::Kind(..)) => self == other,
            _ => false,
        }
    }
    /// Whether it may stand in a list in front of the other one: it is before it, and neither
    /// covers the other.
    pub(crate) fn may_precede(&self, other: &Pattern) -> bool
        ensures { result ≡ may_precede self.now other.now }
    {
        self < other && !self.covers_pattern(other) && !other.covers_pattern(self)
    }
}
