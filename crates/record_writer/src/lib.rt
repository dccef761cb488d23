// Writing records: a short open record, and a close.
#![tactic(auto)]

ghost use Rattle.std.specs.Prelude.{◌≡◌, ◌+◌, ◌≤◌, length};
ghost use Rattle.std.proofs.lemmas.List.Edits.{sets};
ghost use Rattle.record.specs.Record.{short_bytes, close_bytes};

// A short open record, 10 bytes.
pub fn write_short_open(out: &mut [u8], at: usize, depth: u16, value: i32)
    requires { at + 10 ≤ length out.old }
    ensures { out.new ≡ sets out.old at (short_bytes depth value) }
{
    number::write_u16(out, at, 10);
    number::write_u16(out, at + 2, 1);
    number::write_u16(out, at + 4, depth);
    number::write_i32(out, at + 6, value);
}

// A close, 6 bytes.
pub fn write_close(out: &mut [u8], at: usize, depth: u16)
    requires { at + 6 ≤ length out.old }
    ensures { out.new ≡ sets out.old at (close_bytes depth) }
{
    number::write_u16(out, at, 6);
    number::write_u16(out, at + 2, 2);
    number::write_u16(out, at + 4, depth);
}
