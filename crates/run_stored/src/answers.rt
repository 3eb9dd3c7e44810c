// How the answers of the operations are printed.
ghost use Rattle.std.specs.Prelude.{◌++◌, Some, codes, decimal};
ghost use Rattle.error.specs.Refusal.{number_of};

use error::{CheckAnswer, Refusal};
use std::fmt;
use std::fmt::{Display, Formatter};

// A refusal and its place.
#[derive(Clone, Copy)]
pub struct Refused {
    pub refusal: Refusal,
    pub place: usize,
}

impl Display for Refused {
    ghost output = { λ r. Some (codes "refuse " ++ decimal (number_of r.refusal) ++ codes " at " ++ decimal r.place) };

    fn fmt<W: fmt::Write>(&self, f: &mut Formatter<W>) -> fmt::Result {
        let number = error::number_of(self.refusal);
        let place = self.place;
        write!(f, "refuse {number} at {place}")
    }
}

// What checking, converting or drawing answers.
#[derive(Clone, Copy)]
pub struct Checked(pub CheckAnswer);

impl Display for Checked {
    fn fmt<W: fmt::Write>(&self, f: &mut Formatter<W>) -> fmt::Result {
        match self.0 {
            CheckAnswer::Accepted => write!(f, "accept"),
            CheckAnswer::Refused { refusal, place } => write!(f, "{}", Refused { refusal, place }),
        }
    }
}
