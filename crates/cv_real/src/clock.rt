//! The system's clock, in whole seconds.
ghost use Rattle.std.specs.Prelude.{◌≡◌, None};

use cv_base::LAST_TIME;
use cv_ports::Clock;
use std::rt::Clock as SystemTimes;
use std::time::{SystemTime, UNIX_EPOCH};

/// The system's clock. It tells nothing of the moments to come. Where the clock can't be read, or stands before 1970, the
/// moment is 0.
#[derive(Drop)]
pub struct SystemClock<R: SystemTimes> {
    rt: R,
}

impl<R: SystemTimes> SystemClock<R> {
    /// The clock of this runtime.
    pub fn new(rt: R) -> SystemClock<R>
        ensures { result.rt ≡ rt }
    {
        SystemClock { rt }
    }
}

impl<R: SystemTimes> Clock for SystemClock<R> {
    ghost moments = { λ c. None };

    fn now(&mut self) -> u64 {
        let Ok(moment) = SystemTime::now(&self.rt) else {
            return 0;
        };
        match moment.duration_since(UNIX_EPOCH) {
            Ok(since) => since.as_secs().min(LAST_TIME),
            Err(_) => 0,
        }
    }
}
