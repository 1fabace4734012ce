//! How many hosts a run works on at once.
ghost use Rattle.std.specs.Prelude.{◌≡◌, ◌<◌, ◌≤◌};
ghost use Rattle.command_line.specs.Forks.{forks_in, in_range};

/// The text that counts where no option says the number.
pub(crate) const DEFAULT: &str = "5";

/// How many hosts are worked on at once: 1 to 64.
#[derive(Debug, Drop)]
pub struct Forks {
    number: usize,
}

impl std::marker::Model for Forks {
    ghost use Rattle.std.specs.Prelude.{ℕ, ◌<◌, ◌≤◌};

    ghost Value = { ℕ };

    ghost view = { λ f. f.number };

    ghost invariant = { λ f. (0 < f.number) × (f.number ≤ 64) };
}

impl Forks {
    /// The number, where it is 1 to 64.
    pub(crate) fn new(number: usize) -> Option<Forks>
        ensures { result ≡ in_range number }
    {
        if 1 <= number && number <= 64 {
            Some(Forks { number })
        } else {
            None
        }
    }

    /// The number that the text writes in decimal digits, behind a plus or not, where it is 1 to 64.
    pub(crate) fn read(text: &str) -> Option<Forks>
        ensures { result ≡ forks_in text.now }
    {
        match text.parse::<usize>() {
            Ok(number) => Forks::new(number),
            Err(_) => None,
        }
    }

    pub fn number(&self) -> usize
        ensures value { result ≡ self.now }
        ensures some { 0 < result }
        ensures few { result ≤ 64 }
    {
        self.number
    }
}
