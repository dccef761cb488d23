// The bytes of a run.
ghost use Rattle.std.specs.Prelude.{◌≡◌, ◌+◌, ◌≤◌, length};
ghost use Rattle.std.proofs.lemmas.List.Edits.{sets};
ghost use Rattle.outcome.specs.Outcomes.{run_length, run_front, run_bytes};

use figure::Run;

// As far as the third number, which every run has.
fn write_front(out: &mut [u8], at: usize, mode: u16, run: Run)
    requires { at + 30 ≤ length out.old }
    ensures { out.new ≡ sets out.old at (run_front mode run) }
{
    let bytes = outcome::run_length(mode);
    number::write_u16(out, at, bytes as u16);
    number::write_u16(out, at + 2, 20);
    number::write_u16(out, at + 4, mode);
    number::write_i64(out, at + 6, run.first);
    number::write_i64(out, at + 14, run.second);
    number::write_i64(out, at + 22, run.third);
}

pub fn write_run(out: &mut [u8], at: usize, mode: u16, run: Run)
    requires { at + run_length mode ≤ length out.old }
    ensures { out.new ≡ sets out.old at (run_bytes mode run) }
{
    write_front(out, at, mode, run);
    if outcome::has_fourth(mode) {
        number::write_i64(out, at + 30, run.fourth);
    }
}
