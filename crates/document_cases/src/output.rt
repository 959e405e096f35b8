// A standard stream to write to, and why the program ends before the last case.
use engine::Refused;
use rules::Refusal;
use std::fmt;

// By its file descriptor.
#[derive(Drop)]
pub(crate) struct Output(pub(crate) i32);

impl fmt::Write for Output {
    // A write that the stream does not take is passed over: the program goes on, and says nothing.
    fn write_str(&mut self, s: &str) -> fmt::Result {
        io::write_all(self.0, s.as_bytes());
        Ok(())
    }
}

#[derive(Clone, Copy, Debug, PartialEq, Eq)]
pub(crate) enum Fault {
    // a case is refused that the document draws
    Refused(Refusal),
    // the form of `?` on a fmt::Result: no write to an Output gives it
    Output,
}

impl From<Refusal> for Fault {
    fn from(refusal: Refusal) -> Fault {
        Fault::Refused(refusal)
    }
}

impl From<Refused> for Fault {
    fn from(refused: Refused) -> Fault {
        Fault::Refused(refused.refusal)
    }
}

impl From<fmt::Error> for Fault {
    fn from(_: fmt::Error) -> Fault {
        Fault::Output
    }
}
