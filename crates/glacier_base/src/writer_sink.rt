// A sink over a writer.
ghost use Rattle.std.specs.Prelude.{OnOk, OnErr};
ghost use Rattle.std.specs.Io.KnownBytes.{Appends};
ghost use Rattle.glacier_base.specs.ByteStreams.{AppendsPart};
ghost use Rattle.glacier_base.specs.Outside.{HasCause};

use crate::{Failed, FaultCount, Sink, write_whole};
use std::io::Write;

/// A sink that writes to a writer. Of what it writes it tells what the writer's bytes tell.
#[derive(Drop)]
pub struct WriterSink<W: Write + Drop> {
    pub writer: W,
    pub faults: FaultCount,
}

impl<W: Write + Drop> Sink for WriterSink<W> {
    ghost use Rattle.std.specs.Prelude.{false, []};

    ghost tells = { false };

    ghost told = { λ sink. record { written = []; faults = sink.faults; plan = []; calls = 0 } };

    fn write(&mut self, bytes: &[u8]) -> Result<(), Failed>
        ensures whole { OnOk result (Appends (W.contents self.old.writer)
            (W.contents self.new.writer) bytes.now) }
        ensures part { OnErr result (AppendsPart (W.contents self.old.writer)
            (W.contents self.new.writer) bytes.now) }
        ensures cause { HasCause self.old.faults self.new.faults result }
    {
        let written = write_whole(&mut self.writer, bytes);
        self.faults.counted(written)
    }
}
