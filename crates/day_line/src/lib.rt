// The line that the day program prints for a log: its figures, or the refusal.
#![tactic(auto)]

ghost use Rattle.std.specs.Prelude.{◌≡◌, ◌≤◌, length};
ghost use Rattle.std.proofs.lemmas.List.Edits.{sets};
ghost use Rattle.gate.specs.Outcome.{refused, granted};
ghost use Rattle.gate.specs.Answers.{number_of};
ghost use Rattle.outcome.specs.Day.{day_outcome};
ghost use Rattle.outcome.specs.Line.{day_line};

use gate::Refusal;
use outcome::Figures;

// The line of a log's figures, from the buffer's start.
#[tactic(auto, using(crate::proofs::Wrote::short))]
fn write_line(figures: Figures, out: &mut [u8; 128]) -> usize
    ensures answer { result ≡ length (day_line (granted figures)) }
    ensures buffer { out.new ≡ sets out.old 0 (day_line (granted figures)) }
    ensures fits { result ≤ 128 }
{
    let at = text::write_item(out, 0, figures.net, b' ');
    let at = text::write_item(out, at, figures.heaviest, b' ');
    let at = text::write_item(out, at, figures.eaten, b' ');
    text::write_item(out, at, figures.stamp, b'\n')
}

// The line of a refusal, from the buffer's start.
#[tactic(auto, using(crate::proofs::Wrote::short))]
fn write_refusal(no: Refusal, out: &mut [u8; 128]) -> usize
    ensures answer { result ≡ length (day_line (refused (number_of no))) }
    ensures buffer { out.new ≡ sets out.old 0 (day_line (refused (number_of no))) }
    ensures fits { result ≤ 128 }
{
    out[..8].copy_from_slice(b"refused ");
    text::write_item(out, 8, no.number() as i64, b'\n')
}

// The line that the day program prints for a log, from the buffer's start; the answer is its length.
pub fn text(log: &[u8], out: &mut [u8; 128]) -> usize
    ensures answer { result ≡ length (day_line (day_outcome log.now)) }
    ensures buffer { out.new ≡ sets out.old 0 (day_line (day_outcome log.now)) }
    ensures fits { result ≤ 128 }
{
    match day::figures(log) {
        Ok(f) => write_line(f, out),
        Err(no) => write_refusal(no, out),
    }
}
