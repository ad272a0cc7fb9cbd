ghost use Rattle.std.specs.Prelude.{◌≡◌, ◌<◌, length, OnOk, OnErr};
ghost use Rattle.parshelf.specs.SinkState.{appended, FailsAfterPrefix};

use crate::sinks::sink::{Failed, Sink};

/// Writes a whole text. A sink that takes nothing of a part that is not empty has failed.
pub fn write_text<W: Sink>(out: &mut W, text: &[u8]) -> Result<(), Failed>
    ensures ok { OnOk result (W.state out.new ≡ appended (W.state out.old) text.now) }
    ensures err { OnErr result (FailsAfterPrefix (W.state out.old) (W.state out.new) text.now) }
{
    let mut done = 0;
    while done < text.len() {
        match out.put(&text[done..]) {
            Ok(0) => return Err(Failed),
            Ok(n) => done += n,
            Err(Failed) => return Err(Failed),
        }
    }
    Ok(())
}
