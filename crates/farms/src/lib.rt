// The calls of a valley station that serves eight farms, on the state that the caller keeps: fresh, a send and an end of day.
#![tactic(auto)]

ghost use Rattle.std.specs.Prelude.{◌≡◌, suc, ◌+◌, ◌*◌, ◌^◌, ◌≤◌, ◌<◌, min, ◌++◌, length, take, drop};
ghost use Rattle.gate.specs.Outcome.{written, buffer_after};
ghost use Rattle.gate.specs.Answers.{answered, length_answered};
ghost use Rattle.gate.specs.Promises.{Answers};
ghost use Rattle.number.specs.Bytes.{le_at};
ghost use Rattle.summary.specs.Outcomes.{blank_bytes};
ghost use Rattle.valley_station.specs.Station.{fresh_station, opened_in, drawn, excess_of, fresh_outcome, send_outcome, end_outcome};
ghost use Rattle.valley_station.specs.State.{slot_holds, station_of, state_of, put_slot, state_after, fresh_after, send_after, end_after};
ghost use Rattle.valley_station.specs.Runs.{tell};
ghost use Rattle.farms.specs.Answers.{taken_answer};
ghost use Rattle.farms.specs.Promised.{IsSlot, asked21};

use gate::Refusal;

// A farm's slot, as long as the longest summary; there are eight of them in a state.
const SLOT: usize = 1788;

// The opened records that are a farm's own.
const OWN: u32 = 10_000;

// Those that all farms have in common.
const IN_COMMON: u64 = 20_000;

// Where ends what the slot at `at` holds.
fn held_end(state: &[u8], at: usize) -> usize
    requires { at + 1788 ≤ length state.now }
    ensures { result ≡ at + min (le_at 2 state.now at) 1788 }
{
    let n = number::read_u16(state, at) as usize;
    at + n.min(SLOT)
}

// The opened records of a summary. A blank has none, and 6 bytes.
fn opened_in(b: &[u8]) -> u32
    ensures { result ≡ opened_in b.now }
{
    if b.len() < 16 {
        return 0;
    }
    number::read_u32(b, 12)
}

// What a farm with this summary draws: its opened records above the 10,000 that are its own.
fn drawn_by(b: &[u8]) -> u64
    ensures { (result ≡ drawn b.now) × (result < 2 ^ 32) }
{
    opened_in(b).saturating_sub(OWN) as u64
}

// What the farm draws whose slot is at `at`.
fn drawn_at(state: &[u8], at: usize) -> u64
    requires { at + 1788 ≤ length state.now }
    ensures { (result ≡ drawn (slot_holds (drop at state.now))) × (result < 2 ^ 32) }
{
    let end = held_end(state, at);
    drawn_by(&state[at..end])
}

// What the farms draw together.
fn excess(state: &[u8]) -> u64
    requires { length state.now ≡ 14304 }
    ensures { (result ≡ excess_of (station_of state.now)) × (result ≤ 8 * 2 ^ 32) }
{
    let mut total: u64 = 0;
    for k in 0..8 {
        total += drawn_at(state, SLOT * k);
    }
    total
}

// Bytes stored from `at` on.
fn store(out: &mut [u8], at: usize, bytes: &[u8])
    requires { at + length bytes.now ≤ length out.old }
    ensures { out.new ≡ take at out.old ++ (bytes.now ++ drop (at + length bytes.now) out.old) }
{
    // Byte by byte: for `copy_from_slice` the library for C would want `memmove` from outside.
    for i in 0..bytes.len() {
        out[at + i] = bytes[i];
    }
}

// A farm's slot written anew.
fn write_slot(state: &mut [u8], farm: usize, slot: &[u8])
    requires { (length state.old ≡ 14304) × (farm ≤ 7) × (length slot.now ≡ 1788) }
    ensures { state.new ≡ take (1788 * farm) state.old ++ (slot.now ++ drop (1788 * suc farm) state.old) }
{
    store(state, SLOT * farm, slot);
}

// A farm's slot made blank.
fn make_blank(state: &mut [u8], farm: usize, mode: u16)
    requires { (length state.old ≡ 14304) × (farm ≤ 7) }
    ensures { state.new ≡ put_slot state.old farm (blank_bytes mode) }
{
    let mut slot = [0u8; SLOT];
    // It fits.
    let _ = emit::put_blank(mode, &mut slot);
    write_slot(state, farm, &slot);
}

// A farm's merged summary, the first n bytes of a slot: question 21, of the state that it would leave, and then it is stored.
fn settle(state: &mut [u8], farm: usize, slot: &[u8], n: usize) -> Result<(), Refusal>
    requires state_len { (length state.old ≡ 14304) × (farm ≤ 7) }
    requires slot { IsSlot slot.now n }
    ensures answer { taken_answer result ≡ tell (asked21 state.old farm (take n slot.now)) }
    ensures state { state.new ≡ state_after (asked21 state.old farm (take n slot.now)) (put_slot state.old farm) state.old }
{
    let all = excess(&*state);
    let before = drawn_at(&*state, SLOT * farm);
    let after = drawn_by(&slot[..n]);
    if IN_COMMON < all - before + after {
        return Err(Refusal::CommonStock);
    }
    write_slot(state, farm, slot);
    Ok(())
}

// A send, on the state as a slice: what is sent is merged at the right end of what the farm's slot holds, into a slot of zeros.
fn send_in(state: &mut [u8], farm: u32, summary: &[u8]) -> Result<(), Refusal>
    requires { length state.old ≡ 14304 }
    ensures answer { taken_answer result ≡ tell (send_outcome (station_of state.old) farm summary.now) }
    ensures state { state.new ≡ send_after state.old farm summary.now }
{
    if 7 < farm {
        return Err(Refusal::NoSuchFarm);
    }
    let at = SLOT * (farm as usize);
    let end = held_end(&*state, at);
    let mut slot = [0u8; SLOT];
    // No 12: a slot has room for any summary.
    match merge::merge(&state[at..end], summary, &mut slot) {
        Ok(n) => settle(state, farm as usize, &slot, n),
        // An arm, and no `?`: a wrong answer of it alone is tried (must-fail).
        Err(no) => Err(no),
    }
}

// A summary sent for a farm: questions 20, 5, 6 and 21.
pub fn send(state: &mut [u8; 14304], farm: u32, summary: &[u8]) -> Result<(), Refusal>
    ensures answer { taken_answer result ≡ tell (send_outcome (station_of state.old) farm summary.now) }
    ensures state { state.new ≡ send_after state.old farm summary.now }
{
    send_in(state, farm, summary)
}

// Bytes handed out: question 12.
fn hand_out(b: &[u8], out: &mut [u8]) -> Result<usize, Refusal>
    ensures { Answers (written (length out.old) b.now) out.old out.new result }
{
    let n = b.len();
    if out.len() < n {
        return Err(Refusal::BufferTooShort);
    }
    store(out, 0, b);
    Ok(n)
}

// An end of day, on the state as a slice.
fn end_in(state: &mut [u8], farm: u32, out: &mut [u8]) -> Result<usize, Refusal>
    requires { length state.old ≡ 14304 }
    ensures answer { answered result ≡ length_answered (end_outcome (station_of state.old) farm (length out.old)) }
    ensures buffer { out.new ≡ buffer_after (end_outcome (station_of state.old) farm (length out.old)) out.old }
    ensures state { state.new ≡ end_after state.old farm (length out.old) }
{
    if 7 < farm {
        return Err(Refusal::NoSuchFarm);
    }
    let at = SLOT * (farm as usize);
    let end = held_end(&*state, at);
    let p = match judge::judge(&state[at..end]) {
        Ok(p) => p,
        // An arm, and no `?`: a wrong answer of it alone is tried (must-fail).
        Err(no) => return Err(no),
    };
    let length = hand_out(&state[at..end], out)?;
    make_blank(state, farm as usize, p.mode);
    Ok(length)
}

// A farm's end of day: questions 20 and 12. Its summary is handed out, and it is blank then. (5 only where a slot that no call wrote holds no summary.)
pub fn end_of_day(state: &mut [u8; 14304], farm: u32, out: &mut [u8]) -> Result<usize, Refusal>
    ensures answer { answered result ≡ length_answered (end_outcome (station_of state.old) farm (length out.old)) }
    ensures buffer { out.new ≡ buffer_after (end_outcome (station_of state.old) farm (length out.old)) out.old }
    ensures state { state.new ≡ end_after state.old farm (length out.old) }
{
    end_in(state, farm, out)
}

// Every farm's slot made blank.
fn make_all_blank(state: &mut [u8], mode: u16)
    requires { length state.old ≡ 14304 }
    ensures { state.new ≡ state_of (fresh_station mode) }
{
    for farm in 0..8 {
        make_blank(state, farm, mode);
    }
}

// A state made fresh in a mode: question 1.
pub fn fresh(mode: u32, state: &mut [u8; 14304]) -> Result<(), Refusal>
    ensures answer { taken_answer result ≡ tell (fresh_outcome mode) }
    ensures state { state.new ≡ fresh_after state.old mode }
{
    if figure::in_use(mode) {
        make_all_blank(state, mode as u16);
        return Ok(());
    }
    Err(Refusal::Mode)
}
