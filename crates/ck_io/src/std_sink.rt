// Standard output and standard error as sinks: the few lines that are trusted.
ghost use Rattle.std.specs.Prelude.{◌≡◌, ◌<◌, ◌≤◌, length, IfOk, OnOk, OnErr, None};
ghost use Rattle.std.specs.Io.KnownBytes.{WriteAppends};
ghost use Rattle.ck_io.specs.Faults.{one_more};

use crate::files::Failed;
use crate::sink::Sink;
use std::io::Write;
use std::marker::Model;

/// A writer of std. As a sink it tells nothing of its bytes, since a writer needn't.
///
/// Contracts see the writer and the count of its failed puts; a write that takes no byte is one of
/// them.
#[derive(Drop)]
pub struct StdSink<W: Write + Drop> {
    inner: W,
    faults: u64,
}

impl<W: Write + Drop> Model for StdSink<W> {
    ghost use Rattle.ck_io.specs.StdSink.{CountedWriter};

    ghost Value = { CountedWriter W };

    ghost view = { λ sink. record { writer = sink.inner; faults = sink.faults } };
}

impl<W: Write + Drop> StdSink<W> {
    /// Puts go to the writer. No fault yet.
    pub fn new(inner: W) -> StdSink<W>
        ensures { result ≡ record { writer = inner; faults = 0 } }
    {
        StdSink { inner, faults: 0 }
    }
}

impl<W: Write + Drop> Sink for StdSink<W> {
    ghost written = { λ _. None };

    ghost faults = { λ sink. sink.faults };

    fn put(&mut self, bytes: &[u8]) -> Result<usize, Failed>
        requires { 0 < length bytes.now }
        ensures some { IfOk result (λ n. 0 < n) }
        ensures within { IfOk result (λ n. n ≤ length bytes.now) }
        ensures later { self.old.faults ≤ self.new.faults }

        // Beyond what all `Sink`s promise: a failed put counts one more, and of the bytes the writer
        // has those that were taken.
        ensures kept { OnOk result (self.new.faults ≡ self.old.faults) }
        ensures counted { OnErr result (self.new.faults ≡ one_more self.old.faults) }
        ensures writes { WriteAppends (W.contents self.old.writer) (W.contents self.new.writer)
            result bytes.now }
    {
        match self.inner.write(bytes) {
            Ok(n) if n > 0 => Ok(n),
            _ => {
                self.faults = self.faults.saturating_add(1);
                Err(Failed)
            }
        }
    }
}
