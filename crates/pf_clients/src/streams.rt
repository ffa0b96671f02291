//! What a client reads, and where its replies go.

ghost use Rattle.std.specs.Prelude.{IfErr, IfOk};
ghost use Rattle.pf_streams.specs.declared.stream.StreamFault.{StreamFault};
ghost use Rattle.pf_clients.specs.declared.streams.ClientStreams.{ClientStreams};

use pf_streams::StreamFault;
use std::io::Read;

/// What a client reads, and what its replies are written to, if they aren't kept.
#[derive(Drop)]
pub struct ClientStreams<R, W> {
    pub file: R,
    pub replies: Option<W>,
}

/// Where a client's streams come from. The client opens them in its own thread, so that it alone waits until somebody
/// opens the other end of its FIFO.
pub trait Source {
    type File: Read + Send + Drop;

    type Replies;

    /// Which streams it may give.
    ghost gives: { Self → ClientStreams Self.File Self.Replies → Type 0 };

    /// Which of them may not be opened: what is read, or what is written to.
    ghost lacks: { Self → StreamFault → Type 0 };

    /// Opens the streams.
    fn open(self) -> Result<ClientStreams<Self::File, Self::Replies>, StreamFault>
        ensures streams { IfOk result (λ streams. gives self streams) }
        ensures lacks { IfErr result (λ fault. lacks self fault) };
}
