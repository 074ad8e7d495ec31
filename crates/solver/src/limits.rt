//! The limits of a search.
ghost use Rattle.std.specs.Prelude.{◌≡◌, IsTrue, is_some};
ghost use Rattle.solver.specs.Limit.{is_limit};

use crate::max_version::MaxVersion;
use devices::Clock;

/// The greatest value of a limit.
pub const MAX_LIMIT: u32 = 16_777_216;

/// The limits of listed states and of kept instances, each from 1 to 16,777,216, and of seconds, if the time is limited; and the latest
/// version that the certificate may have. An instance is kept unless it is statically inapplicable.
#[derive(Clone, Copy, Debug, PartialEq, Eq)]
pub struct Limits {
    states: u32,
    instances: u32,
    seconds: Option<u32>,
    version: MaxVersion,
    ghost states_within: { IsTrue (is_limit states) },
    ghost instances_within: { IsTrue (is_limit instances) },
}

impl Limits {
    ghost use Rattle.std.specs.Prelude.{◌&&◌, ◌≤◌, is_some, IfSome, None, Some};
    ghost use Rattle.solver.specs.Versions.{number_of};
    ghost use Rattle.solver.specs.declared.max_version.MaxVersion.TheVariants.{Four};

    /// These limits, with no limit of time and any version, or `None` if one is out of range.
    ///
    /// ```text
    /// Limits::new(100_000, 10_000)        // Some: 100,000 states and 10,000 instances
    /// Limits::new(MAX_LIMIT, MAX_LIMIT)   // Some: the greatest limits
    /// Limits::new(0, 10_000)              // None
    /// Limits::new(100_000, MAX_LIMIT + 1) // None
    /// ```
    pub fn new(states: u32, instances: u32) -> Option<Limits>
        ensures within { is_some result ≡ (is_limit states && is_limit instances) }
        ensures states { IfSome result (λ l. l.states ≡ states) }
        ensures instances { IfSome result (λ l. l.instances ≡ instances) }
        ensures seconds { IfSome result (λ l. l.seconds ≡ None) }
        ensures version { IfSome result (λ l. l.version ≡ Four) }
    {
        if is_limit(states) && is_limit(instances) {
            Some(Limits {
                states,
                instances,
                seconds: None,
                version: MaxVersion::Four,
            })
        } else {
            None
        }
    }

    /// The same limits, with this one of time.
    pub fn within_seconds(self, seconds: u32) -> Limits
        ensures states { result.states ≡ self.states }
        ensures instances { result.instances ≡ self.instances }
        ensures seconds { result.seconds ≡ Some seconds }
        ensures version { result.version ≡ self.version }
    {
        let Limits {
            states,
            instances,
            version,
            ..
        } = self;
        Limits {
            states,
            instances,
            seconds: Some(seconds),
            version,
        }
    }

    /// The same limits, with this one of the certificate's version.
    pub fn up_to_version(self, version: MaxVersion) -> Limits
        ensures states { result.states ≡ self.states }
        ensures instances { result.instances ≡ self.instances }
        ensures seconds { result.seconds ≡ self.seconds }
        ensures version { result.version ≡ version }
    {
        let Limits {
            states,
            instances,
            seconds,
            ..
        } = self;
        Limits {
            states,
            instances,
            seconds,
            version,
        }
    }

    /// Whether the certificate may have version 3, and with it tables and exchanges of objects.
    pub(crate) fn allow_version_three(&self) -> bool
        ensures { IsTrue result → 3 ≤ number_of self.now.version }
    {
        self.version.allows_three()
    }

    /// Whether the certificate may have version 4, and with it landmark values.
    pub(crate) fn allow_version_four(&self) -> bool
        ensures { IsTrue result → 4 ≤ number_of self.now.version }
    {
        self.version.allows_four()
    }

    /// Whether the clock shows that the time is over.
    pub(crate) fn are_over<C: Clock>(&self, clock: &C) -> bool
        ensures { IsTrue result → IsTrue (is_some self.now.seconds) }
    {
        match self.seconds {
            Some(most) => u64::from(most) <= clock.seconds(),
            None => false,
        }
    }

    /// The limit of listed states.
    pub fn states(&self) -> u32
        ensures { result ≡ self.now.states }
    {
        self.states
    }

    /// The limit of kept instances.
    pub fn instances(&self) -> u32
        ensures { result ≡ self.now.instances }
    {
        self.instances
    }
}

/// Whether the number is in range.
fn is_limit(number: u32) -> bool
    ensures { result ≡ is_limit number }
{
    1 <= number && number <= MAX_LIMIT
}
