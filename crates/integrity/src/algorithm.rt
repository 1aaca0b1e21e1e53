// The two integrity algorithms that a product is put together from, by their numbers.
ghost use Rattle.integrity.specs.Algorithms.{Decodes, algorithm_number};
ghost use Rattle.std.specs.Prelude.{◌≡◌};

#[derive(Clone, Copy, PartialEq, Eq, Debug)]
pub enum Algorithm {
    One = 1,
    Two = 2,
}

// A number that is no algorithm's.
#[derive(Clone, Copy, PartialEq, Eq, Debug)]
pub struct UnknownAlgorithm {
    pub number: u8,
}

impl Algorithm {
    // The number that offers, answers and scripts name the algorithm by.
    pub fn number(self) -> u8
        ensures { result ≡ algorithm_number self }
    {
        self as u8
    }
}

impl TryFrom<u8> for Algorithm {
    type Error = UnknownAlgorithm;

    ghost try_from_gives = { Decodes };

    fn try_from(number: u8) -> Result<Algorithm, UnknownAlgorithm> {
        match number {
            1 => Ok(Algorithm::One),
            2 => Ok(Algorithm::Two),
            _ => Err(UnknownAlgorithm { number }),
        }
    }
}
