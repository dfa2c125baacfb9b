//! Where the output of a run goes.
ghost use Rattle.std.specs.Prelude.{◌≡◌, OnOk};
ghost use Rattle.host_trait.specs.Sink.{SinkState, Puts, IsPrefixOf, HasSinkCause};

use thiserror::Error;

/// Why a put has failed.
#[derive(Clone, Copy, Debug, PartialEq, Eq, Error)]
pub enum SinkFault {
    /// The sink took not all of the bytes. Its count of faults has risen.
    #[error("the output has failed")]
    Device,
}

/// What takes the text that a run puts out.
pub trait Sink {
    /// What was put where it tells that, and its count of faults.
    ghost sink: { Self → SinkState };

    /// Appends these bytes, or a beginning of them where it fails. It takes no memory.
    fn put(&mut self, bytes: &[u8]) -> Result<(), SinkFault>
        ensures ok { OnOk result (Puts (sink self.old) (sink self.new) (λ more. more ≡ bytes.now)) }
        ensures prefix { Puts (sink self.old) (sink self.new) (IsPrefixOf bytes.now) }
        ensures cause { HasSinkCause (sink self.old) (sink self.new) result };
}
