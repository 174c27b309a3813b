// Why the program stops before its end.
use refusal::{Refusal, Refused};
use std::alloc::AllocError;
use std::io;

// Its `From` are written by hand: a derive of them would be one crate more to trust.
#[derive(Drop)]
pub enum Stop {
    // A call was refused.
    Refused(Refused),
    // There was no memory, or reading or writing failed.
    Failed(anyhow::Error),
}

impl From<Refused> for Stop {
    fn from(refused: Refused) -> Stop {
        Stop::Refused(refused)
    }
}

impl From<Refusal> for Stop {
    fn from(refusal: Refusal) -> Stop {
        Stop::Refused(refusal.into())
    }
}

// A gathering that is handed back is of no more use here.
impl<T: Drop> From<(Refused, T)> for Stop {
    fn from(back: (Refused, T)) -> Stop {
        Stop::Refused(back.0)
    }
}

impl From<AllocError> for Stop {
    fn from(error: AllocError) -> Stop {
        Stop::Failed(error.into())
    }
}

impl From<io::Error> for Stop {
    fn from(error: io::Error) -> Stop {
        Stop::Failed(error.into())
    }
}
