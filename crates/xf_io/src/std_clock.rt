//! A clock over std's.
ghost use Rattle.std.specs.Prelude.{None};

use crate::clock::Clock;
use std::rt;
use std::time::Instant;

/// Whole seconds since it was made, or 0 where the system's clock doesn't tell them: as the databases' time, it begins at 0. Its
/// answers aren't told.
#[derive(Drop)]
pub struct StdClock<'a, R: rt::Clock> {
    rt: &'a R,
    start: Option<Instant>,
}

impl<'a, R: rt::Clock> StdClock<'a, R> {
    pub fn new(rt: &'a R) -> StdClock<'a, R> {
        StdClock {
            rt,
            start: Instant::now(rt).ok(),
        }
    }
}

impl<R: rt::Clock> Clock for StdClock<'_, R> {
    ghost coming = { λ _. None };

    fn now(&mut self) -> u64 {
        match &self.start {
            None => 0,
            Some(start) => match start.elapsed(self.rt) {
                Ok(span) => span.as_secs(),
                Err(_) => 0,
            },
        }
    }
}

#[cfg(test)]
mod tests {
    use super::*;
    use std::cell::Cell;
    use std::io;
    use std::io::ErrorKind;
    use std::time::Duration;

    // A system's clock that goes on by 2.5 seconds with each look, or tells nothing.
    #[derive(Drop)]
    struct Stepping {
        looks: Cell<u64>,
        tells: bool,
    }

    impl rt::Clock for Stepping {
        fn monotonic(&self) -> io::Result<Duration> {
            let looks = self.looks.get();
            self.looks.set(looks.wrapping_add(1) % 1000);
            if self.tells {
                Ok(Duration::from_millis(1_000_000 + looks % 1000 * 2500))
            } else {
                Err(io::Error::from(ErrorKind::Unsupported))
            }
        }

        fn since_1970(&self) -> io::Result<Duration> {
            self.monotonic()
        }
    }

    #[test]
    fn tells_whole_seconds_from_its_making(rt: HostRuntime) {
        for (tells, answers) in [(true, [2, 5, 7]), (false, [0, 0, 0])] {
            let stepping = Stepping {
                looks: Cell::new(0),
                tells,
            };
            let mut clock = StdClock::new(&stepping);
            for answer in answers {
                assert_eq!(rt; clock.now(), answer);
            }
        }
        assert!(rt; StdClock::new(&rt).now() < u64::MAX);
    }
}
