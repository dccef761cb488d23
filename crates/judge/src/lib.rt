// Question 5: whether bytes are exactly one summary, and which; the layout, which a run has too. Document 01, "Summaries".
#![tactic(auto)]

ghost use Rattle.std.specs.Prelude.{◌≡◌, ◌+◌, ◌≤◌, min, length};
ghost use Rattle.figure.specs.Mode.{mode_of};
ghost use Rattle.figure.specs.Stored.{size_of};
ghost use Rattle.summary.specs.Judge.{rise_at, fall_at, sum_to, IsSummary};
ghost use Rattle.summary.specs.Decide.{
  all_to,
  layout_fits,
  spoilt_fits,
  levels_fit,
  opened_fits,
  middle_fits,
  records_fit,
  values_fit,
  is_summary,
};
ghost use Rattle.gate.specs.Answers.{answered};
ghost use Rattle.judge.specs.Judged.{held_in, fault_named, spoilt_head_at, hill_head_at, head_at, judged_of};
ghost use Rattle.judge.specs.Numbers.{Fits, numbers_of};
ghost use Rattle.judge.specs.Laid.{
  is_spoilt_test,
  is_hill_test,
  stamps_fit,
  sizes_fit,
  Levels,
  Laid,
  Few,
  Strides,
  Room,
  record_in,
  value_in,
};

use figure::Held;
use gate::Refusal;

// What a spoilt summary says.
#[derive(Clone, Copy, Debug, PartialEq, Eq)]
pub struct SpoiltHead {
    pub fault: Refusal,
    pub start: u16,
    pub end: u16,
    pub opened: u32,
}

// What a hill says before and between its slopes.
#[derive(Clone, Copy, Debug, PartialEq, Eq)]
pub struct HillHead {
    pub start: u16,
    pub peak: u16,
    pub end: u16,
    pub opened: u32,
    pub middle: Held,
}

// A summary is one of three cases: a chunk with no record, one with a fault, or a hill, whose slopes stand beside it: in the bytes where it is read,
// in arrays where it is written.
#[derive(Clone, Copy, Debug, PartialEq, Eq)]
pub enum Head {
    Blank,
    Spoilt(SpoiltHead),
    Hill(HillHead),
}

// One summary, but for a hill's slopes.
#[derive(Clone, Copy, Debug, PartialEq, Eq)]
pub struct Piece {
    pub mode: u16,
    pub head: Head,
}

// What a summary that is not blank says before its slopes, in one form for a spoilt one and a hill. A spoilt one has no peak, and any level may stand
// there. No level that passes the gate is above 64, so levels have 8 bits here; in bytes and in a head they have 16.
#[derive(Clone, Copy, Debug, PartialEq, Eq)]
pub struct Numbers {
    pub fault: Option<Refusal>,
    pub start: u8,
    pub peak: u8,
    pub end: u8,
    pub opened: u32,
}

// Grams that one record can add.
const LIMIT: u64 = 1_000_000_000;

// ---- the layout, which a run has too

pub fn layout_fits(b: &[u8], kind: u16, bytes: usize) -> bool
    requires { 6 ≤ length b.now }
    ensures { result ≡ layout_fits b.now kind bytes }
{
    (number::read_u16(b, 2) == kind)
        & (b.len() == bytes)
        & ((number::read_u16(b, 0) as usize) == b.len())
        & figure::in_use(number::read_u16(b, 4) as u32)
}

// ---- a spoilt summary

fn spoilt_fits(b: &[u8]) -> bool
    requires { 16 ≤ length b.now }
    ensures { result ≡ spoilt_fits b.now }
{
    let fault = number::read_u16(b, 6);
    let opened = number::read_u32(b, 12);
    (7 <= fault)
        & (fault <= 9)
        & (number::read_u16(b, 8) <= 64)
        & (number::read_u16(b, 10) <= 64)
        & (opened <= 100_001)
        & (!(fault == 9) | (opened == 100_001))
}

fn is_spoilt(b: &[u8]) -> bool
    requires { 6 ≤ length b.now }
    ensures { result ≡ is_spoilt_test b.now }
{
    if b.len() < 16 {
        return false;
    }
    layout_fits(b, 17, 16) & spoilt_fits(b)
}

// ---- a hill's levels

fn levels_fit(b: &[u8]) -> bool
    requires { 16 ≤ length b.now }
    ensures { result ≡ levels_fit b.now }
{
    let start = number::read_u16(b, 6);
    let peak = number::read_u16(b, 8);
    let end = number::read_u16(b, 10);
    (start <= 64)
        & (end <= 64)
        & (peak <= start)
        & (peak <= end)
        & (!(peak == 0) | ((start == 0) | (end == 0)))
}

// How many left values there are.
fn rise(b: &[u8]) -> usize
    requires { Levels b.now }
    ensures { result ≡ rise_at b.now }
{
    (number::read_u16(b, 6) - number::read_u16(b, 8)) as usize
}

// How many unclosed records there are.
fn fall(b: &[u8]) -> usize
    requires { Levels b.now }
    ensures { result ≡ fall_at b.now }
{
    (number::read_u16(b, 10) - number::read_u16(b, 8)) as usize
}

// ---- a hill's numbers

fn opened_fits(b: &[u8]) -> bool
    requires { 16 ≤ length b.now }
    ensures { result ≡ opened_fits b.now }
{
    let start = number::read_u16(b, 6);
    let peak = number::read_u16(b, 8);
    let end = number::read_u16(b, 10);
    let opened = number::read_u32(b, 12);
    (opened <= 100_000) & (!(start == peak) | (!(peak == end) | !(opened == 0)))
}

// At peak 0 the middle holds nothing, unless the hill begins and ends there.
fn middle_fits(b: &[u8]) -> bool
    requires { Laid b.now }
    ensures { result ≡ middle_fits b.now }
{
    let start = number::read_u16(b, 6);
    let peak = number::read_u16(b, 8);
    let end = number::read_u16(b, 10);
    let middle = number::read_i64(b, 16 + 8 * rise(b));
    let nothing = figure::nothing(number::read_u16(b, 4));
    !(peak == 0) | ((start == 0) & (end == 0) | (middle <= nothing) & (nothing <= middle))
}

// Whether the amounts of the unclosed record whose bytes begin at `at` are in range.
fn record_fits(b: &[u8], at: usize) -> bool
    requires { at + 20 ≤ length b.now }
    ensures { result ≡ record_in b.now at }
{
    record::amounts_fit(
        number::read_i32(b, at),
        number::read_i32(b, at + 4),
        number::read_i32(b, at + 8),
    )
}

// The depths are below the end, so at most 63.
fn records_fit(b: &[u8]) -> bool
    requires { Laid b.now }
    ensures { result ≡ records_fit b.now }
{
    let first = 24 + 8 * rise(b);
    let n = fall(b);
    let mut all = true;
    for j in 0..n {
        all = all & record_fits(b, first + 20 * j);
    }
    all
}

// ---- a hill's 64-bit values: n of them, at `at` and then each `step` bytes on

// What the values count, each cut to cap: the sum then needs no cut, which would have each turn wait for the one before.
fn capped_sizes(b: &[u8], mode: u16, at: usize, step: usize, n: usize, cap: u64) -> u64
    requires strides { Strides b.now at step n }
    requires room { Room n cap }
    ensures { result ≡ sum_to n (λ i. min cap (size_of (mode_of mode) (value_in b.now at step i))) }
{
    let mut sum = 0;
    for i in 0..n {
        sum += figure::size(mode, number::read_i64(b, at + step * i)).min(cap);
    }
    sum
}

// Whether each value stands for a figure.
fn all_figures(b: &[u8], mode: u16, at: usize, step: usize, n: usize) -> bool
    requires { Strides b.now at step n }
    ensures { result ≡ all_to n (λ i. (mode_of mode).is_figure (value_in b.now at step i)) }
{
    let mut all = true;
    for i in 0..n {
        all = all & figure::is_figure(mode, number::read_i64(b, at + step * i));
    }
    all
}

// In mode 4 each value is a stamp.
fn stamps_fit(b: &[u8]) -> bool
    requires { Laid b.now }
    ensures { result ≡ stamps_fit b.now }
{
    let left = rise(b);
    let right = fall(b);
    all_figures(b, 4, 16, 8, left + 1)
        & all_figures(b, 4, 36 + 8 * left, 20, right)
        & (right <= (number::read_u32(b, 12) as usize))
}

// In modes 1, 2 and 5 the values and the unclosed records are bounded by the opened ones.
fn sizes_fit(b: &[u8], mode: u16) -> bool
    requires { Few b.now }
    ensures { result ≡ sizes_fit mode b.now }
{
    let left = rise(b);
    let right = fall(b);
    let cap = LIMIT * (number::read_u32(b, 12) as u64) + 1;
    let lefts = capped_sizes(b, mode, 16, 8, left + 1, cap);
    let helds = capped_sizes(b, mode, 36 + 8 * left, 20, right, cap);
    LIMIT * (right as u64) + lefts + helds < cap
}

fn values_fit(b: &[u8]) -> bool
    requires { Few b.now }
    ensures { result ≡ values_fit b.now }
{
    let mode = number::read_u16(b, 4);
    if mode == 4 {
        return stamps_fit(b);
    }
    sizes_fit(b, mode)
}

// ---- a hill

fn is_hill(b: &[u8]) -> bool
    requires { 6 ≤ length b.now }
    ensures { result ≡ is_hill_test b.now }
{
    if b.len() < 24 {
        return false;
    }
    if !levels_fit(b) {
        return false;
    }
    if !layout_fits(b, 18, 24 + 8 * rise(b) + 20 * fall(b)) {
        return false;
    }
    if !opened_fits(b) {
        return false;
    }
    middle_fits(b) & records_fit(b) & values_fit(b)
}

// ---- what the bytes say

// A stored number, as what is held in a mode.
pub fn held_in(mode: u16, x: i64) -> Held
    ensures { result ≡ held_in mode x }
{
    if figure::stores_nothing(mode) {
        figure::read_held(x)
    } else {
        Held::Figure(x)
    }
}

// The fault that a spoilt summary names by its number.
#[tactic(auto, unfolding(crate::specs::Judged::fault_named))]
fn fault_named(n: u16) -> Refusal
    ensures { result ≡ fault_named n }
{
    match n {
        7 => Refusal::LevelGap,
        8 => Refusal::LevelZero,
        _ => Refusal::TooManyOpened,
    }
}

fn spoilt_head(b: &[u8]) -> SpoiltHead
    requires { 16 ≤ length b.now }
    ensures { result ≡ spoilt_head_at b.now }
{
    SpoiltHead {
        fault: fault_named(number::read_u16(b, 6)),
        start: number::read_u16(b, 8),
        end: number::read_u16(b, 10),
        opened: number::read_u32(b, 12),
    }
}

fn hill_head(b: &[u8]) -> HillHead
    requires { Laid b.now }
    ensures { result ≡ hill_head_at b.now }
{
    let middle = held_in(
        number::read_u16(b, 4),
        number::read_i64(b, 16 + 8 * rise(b)),
    );
    HillHead {
        start: number::read_u16(b, 6),
        peak: number::read_u16(b, 8),
        end: number::read_u16(b, 10),
        opened: number::read_u32(b, 12),
        middle,
    }
}

// Which of the three cases the bytes of a summary are, and what it says.
pub fn head_of(b: &[u8]) -> Head
    requires { IsSummary b.now }
    ensures { result ≡ head_at b.now }
{
    let kind = number::read_u16(b, 2);
    match kind {
        16 => Head::Blank,
        17 => Head::Spoilt(spoilt_head(b)),
        _ => Head::Hill(hill_head(b)),
    }
}

// ---- question 5

fn is_summary(b: &[u8]) -> bool
    requires { 6 ≤ length b.now }
    ensures { result ≡ is_summary b.now }
{
    let kind = number::read_u16(b, 2);
    match kind {
        16 => layout_fits(b, 16, 6),
        17 => is_spoilt(b),
        _ => is_hill(b),
    }
}

// Whether bytes are exactly one summary, and which.
pub fn judge(b: &[u8]) -> Result<Piece, Refusal>
    ensures { answered result ≡ judged_of b.now }
{
    if b.len() < 6 {
        return Err(Refusal::NotASummary);
    }
    if !is_summary(b) {
        return Err(Refusal::NotASummary);
    }
    Ok(Piece {
        mode: number::read_u16(b, 4),
        head: head_of(b),
    })
}

// ---- what a head says before its slopes

// The numbers of a head, of a blank none.
pub fn numbers_of(head: Head) -> Option<Numbers>
    requires { Fits head }
    ensures { result ≡ numbers_of head }
{
    match head {
        Head::Blank => None,
        Head::Spoilt(s) => Some(Numbers {
            fault: Some(s.fault),
            start: s.start as u8,
            peak: 0,
            end: s.end as u8,
            opened: s.opened,
        }),
        Head::Hill(h) => Some(Numbers {
            fault: None,
            start: h.start as u8,
            peak: h.peak as u8,
            end: h.end as u8,
            opened: h.opened,
        }),
    }
}
