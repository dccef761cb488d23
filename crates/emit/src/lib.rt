// A summary, as its head and the slopes, written into a lent buffer where it fits: question 12.
#![tactic(auto)]

ghost use Rattle.std.specs.Prelude.{length};
ghost use Rattle.gate.specs.Outcome.{written};
ghost use Rattle.gate.specs.Promises.{Answers};
ghost use Rattle.figure.specs.Mode.{mode_of};
ghost use Rattle.hill.specs.Summary.{blank};
ghost use Rattle.summary.specs.Layout.{encode};
ghost use Rattle.slopes.specs.Kept.{arrays_of};
ghost use Rattle.emit.specs.Emitted.{spoilt_said, hill_said, summary_said, WritableHill, Writable};

use gate::Refusal;
use judge::{Head, HillHead, SpoiltHead};
use slopes::{Counts, Slopes};

mod bytes;

// A blank summary.
pub fn put_blank(mode: u16, out: &mut [u8]) -> Result<usize, Refusal>
    ensures { Answers (written (length out.old) (encode mode blank)) out.old out.new result }
{
    if out.len() < 6 {
        return Err(Refusal::BufferTooShort);
    }
    Ok(bytes::write_blank(mode, out))
}

fn put_spoilt(mode: u16, s: SpoiltHead, out: &mut [u8]) -> Result<usize, Refusal>
    ensures { Answers (written (length out.old) (encode mode (spoilt_said mode s))) out.old out.new result }
{
    if out.len() < 16 {
        return Err(Refusal::BufferTooShort);
    }
    Ok(bytes::write_spoilt(mode, s, out))
}

fn put_hill(mode: u16, h: HillHead, slopes: &Slopes, out: &mut [u8]) -> Result<usize, Refusal>
    requires { WritableHill (mode_of mode) h (arrays_of slopes.now) }
    ensures { Answers (written (length out.old) (encode mode (hill_said mode h (arrays_of slopes.now))))
        out.old out.new result }
{
    let nl = (h.start - h.peak) as usize;
    let n = (h.end - h.peak) as usize;
    if out.len() < 24 + 8 * nl + 20 * n {
        return Err(Refusal::BufferTooShort);
    }
    let c = Counts {
        nl,
        n,
        mid: figure::store_held(h.middle),
    };
    Ok(bytes::write_hill(mode, h.peak, h.opened, slopes, c, out))
}

// The summary that the head and the slopes say, by its three cases.
pub fn put(mode: u16, head: Head, slopes: &Slopes, out: &mut [u8]) -> Result<usize, Refusal>
    requires { Writable (mode_of mode) head (arrays_of slopes.now) }
    ensures { Answers (written (length out.old) (encode mode (summary_said mode head (arrays_of slopes.now))))
        out.old out.new result }
{
    match head {
        Head::Blank => put_blank(mode, out),
        Head::Spoilt(s) => put_spoilt(mode, s, out),
        Head::Hill(h) => put_hill(mode, h, slopes, out),
    }
}
