ghost use Rattle.std.specs.Prelude.{◌≡◌};
ghost use Rattle.st_base.specs.Config as config;

use thiserror::Error;

/// The settings of a world. `num / den` bounds the ratio of the rates of two clocks. All other
/// fields are in ticks.
#[derive(Clone, Copy, Debug, PartialEq, Eq)]
pub struct Config {
    /// The age at which a lease expires.
    pub lease: u64,
    /// The age from which a client renews its lease.
    pub renew: u64,
    /// The age from which a client serves applications nothing new.
    pub quiesce: u64,
    /// The age from which a client writes all its dirty pages.
    pub flush: u64,
    /// How long a demand may stay without an answer before the server suspects the client.
    pub demand: u64,
    /// How long a node waits before it sends an unanswered message again.
    pub retry: u64,
    /// The numerator of the rate bound.
    pub num: u64,
    /// The denominator of the rate bound.
    pub den: u64,
    /// How far the readings of two clocks over one interval may differ in addition to the rate
    /// bound.
    pub grain: u64,
}

/// Why settings are refused, in the order of the checks.
#[derive(Clone, Copy, Debug, PartialEq, Eq, Error)]
pub enum ConfigRefusal {
    #[error("0 < renew < quiesce < flush < lease does not hold")]
    Order,
    #[error("den is 0, num is below den, or num is above 1048576")]
    Rate,
    #[error("the lease is above 2^40 ticks")]
    TooLong,
    #[error("0 < retry <= demand <= lease does not hold")]
    Demand,
    #[error("the grain is above the lease")]
    Grain,
}

impl Config {
    /// Returns the first fault of the settings, in the order of `docs/PROTOCOL.md`, "Settings". It
    /// does not allocate.
    pub fn check(&self) -> Result<(), ConfigRefusal>
        ensures { result ≡ config.check self.now }
    {
        let c = *self;
        if !(0 < c.renew && c.renew < c.quiesce && c.quiesce < c.flush && c.flush < c.lease) {
            return Err(ConfigRefusal::Order);
        }
        if !(0 < c.den && c.den <= c.num && c.num <= 1_048_576) {
            return Err(ConfigRefusal::Rate);
        }
        if c.lease > 1_099_511_627_776 {
            return Err(ConfigRefusal::TooLong);
        }
        if !(0 < c.retry && c.retry <= c.demand && c.demand <= c.lease) {
            return Err(ConfigRefusal::Demand);
        }
        if c.grain > c.lease {
            return Err(ConfigRefusal::Grain);
        }
        Ok(())
    }
}
