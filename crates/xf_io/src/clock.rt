//! Seconds.
ghost use Rattle.std.specs.Prelude.{◌≡◌, ℕ, Option, Some};
ghost use Rattle.xf_io.specs.Seconds.{ClockGives, answer_at};

use std::marker::Model;

/// Where the time comes from.
pub trait Clock {
    /// The answers still to come by their places, counted from 0, where it tells them.
    ghost coming: { Self → Option (ℕ → ℕ) };

    /// The time in whole seconds.
    fn now(&mut self) -> u64
        ensures { ClockGives (coming self.old) (coming self.new) result };
}

/// Answers from a list, in its order. The last answer repeats, and an empty list answers 0.
#[derive(Drop)]
pub struct ListClock {
    answers: Vec<u64>,
    asked: usize,
}

impl Model for ListClock {
    ghost use Rattle.std.specs.Prelude.{ℕ, List, ◌≤◌, drop, vec_len};

    ghost Value = { List ℕ };

    ghost view = { λ c. drop c.asked c.answers.items };

    ghost invariant = { λ c. c.asked ≤ vec_len c.answers };
}

impl ListClock {
    pub fn new(answers: Vec<u64>) -> ListClock
        ensures { result ≡ answers.items }
    {
        ListClock { answers, asked: 0 }
    }
}

impl Clock for ListClock {
    ghost coming = { λ answers. Some (answer_at answers) };

    fn now(&mut self) -> u64 {
        let coming = &self.answers[self.asked..];
        let answer = coming.first().copied().unwrap_or(0);
        if coming.len() > 1 {
            self.asked += 1;
        }
        answer
    }
}
