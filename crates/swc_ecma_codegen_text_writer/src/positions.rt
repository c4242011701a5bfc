//! Positions in a source text, and where in the printed text they stand.

ghost use Rattle.std.specs.Prelude.{◌≡◌, ◌≤◌, ◌<◌, ◌+◌, ◌*◌, ◌^◌, take, drop, List, [], ◌∷◌, ◌++◌, length, Some, None, OnOk, OnErr};
ghost use Rattle.std.specs.List.{AllWithin};
ghost use Rattle.std.proofs.Props.{props};
ghost use Rattle.swc_ecma_codegen_text_writer.specs.Places.{Place, units_of, after_byte, after_text, next_line};
ghost use Rattle.swc_ecma_codegen_text_writer.specs.Sheet.{Pair, is_same_pair, has_pair};
ghost use Rattle.swc_ecma_codegen_text_writer.specs.Reach.{Shows, IsFrom, IsAt, IsBefore, further, is_one_column, is_in_line};

use std::alloc::AllocError;
use std::simd::prelude::*;
use swc_ecma_codegen_common::{Answer, BytePos, LineCol, Refusal};

/// A count stays here: from here on no `LineCol` tells it.
const LIMIT: u64 = 1 << 32;

/// The UTF-16 units that begin with a byte of UTF-8: none with one that goes on, two with the first of four.
#[tactic(auto, unfolding(crate::specs::Places::units_of))]
pub fn units(byte: u8) -> u64
    ensures value { result ≡ units_of byte }
    ensures few { result ≤ 2 }
{
    if byte <= 0x7f {
        1
    } else if byte <= 0xbf {
        0
    } else if byte <= 0xef {
        1
    } else {
        2
    }
}

/// Whether a byte is a character that takes one column and ends no line.
#[tactic(auto, unfolding(crate::specs::Reach::is_one_column))]
#[inline(always)]
pub fn is_one_column(byte: u8) -> bool
    ensures { result ≡ is_one_column byte }
{
    0x0e <= byte && byte <= 0x7f
}

/// Whether each character of a text is one of these, as all of `typeof` are. To 16 bytes it has no loop.
#[inline(always)]
pub fn is_in_line(text: &[u8]) -> bool
    ensures { result ≡ is_in_line text.now }
{
    let count = text.len();
    if count < 4 {
        return count == 0 || is_few_in_line(text);
    }
    if count <= 8 {
        return ends_in_line::<4>(text);
    }
    if count <= 16 {
        return ends_in_line::<8>(text);
    }
    is_long_in_line(text)
}

/// The same of one to three bytes: the first, the last, and one between them. In `if` that is `i`, `f` and `f`.
#[inline(always)]
fn is_few_in_line(text: &[u8]) -> bool
    requires some { 0 < length text.now }
    requires few { length text.now ≤ 3 }
    ensures { result ≡ is_in_line text.now }
{
    let count = text.len();
    is_one_column(text[0]) & is_one_column(text[count / 2]) & is_one_column(text[count - 1])
}

/// The same of N to 2 * N bytes: the first N and the last N. With four, in `typeof` that is `type` and `peof`.
#[inline(always)]
fn ends_in_line<const N: usize>(text: &[u8]) -> bool
    requires lanes { (0 < N) × (N ≤ 32) }
    requires whole { (N ≤ length text.now) × (length text.now ≤ 2 * N) }
    ensures { result ≡ is_in_line text.now }
{
    run_in_line::<N>(text, 0) & run_in_line::<N>(text, text.len() - N)
}

/// The same of at least 16 bytes: 16 at a time, and then the last 16.
#[inline(never)]
fn is_long_in_line(text: &[u8]) -> bool
    requires { 16 ≤ length text.now }
    ensures { result ≡ is_in_line text.now }
{
    let last = text.len() - 16;
    let mut at = 0;
    while at < last {
        if !run_in_line::<16>(text, at) {
            return false;
        }
        at += 16;
    }
    run_in_line::<16>(text, last)
}

/// The same of N bytes from a place on, at once.
#[inline(always)]
fn run_in_line<const N: usize>(text: &[u8], at: usize) -> bool
    requires lanes { (0 < N) × (N ≤ 64) }
    requires within { at + N ≤ length text.now }
    ensures { result ≡ is_in_line (take N (drop at text.now)) }
{
    let lanes = Simd::<u8, N>::from_slice(&text[at..]);
    let early = lanes.simd_lt(Simd::splat(0x0e)).to_bitmask();
    let late = lanes.simd_gt(Simd::splat(0x7f)).to_bitmask();
    (early == 0) & (late == 0)
}

#[tactic(auto, unfolding(crate::specs::Sheet::is_same_pair))]
fn is_same(a: (BytePos, LineCol), b: (BytePos, LineCol)) -> bool
    ensures { result ≡ is_same_pair a b }
{
    a.0.0 == b.0.0 && a.1.line == b.1.line && a.1.col == b.1.col
}

/// Whether a pair is among others.
fn holds(pairs: &[(BytePos, LineCol)], pair: (BytePos, LineCol)) -> bool
    ensures { result ≡ has_pair pair pairs.now }
{
    for other in pairs {
        if is_same(pair, *other) {
            return true;
        }
    }
    false
}

/// A place in the printed text: its line, and its column in UTF-16 units, both from 0. A count stays at 2^32.
#[derive(Clone, Copy, Drop)]
pub struct Reached {
    line: u64,
    column: u64,
    after_cr: bool,
}

impl Reached {
    #[tactic(auto, unfolding(crate::specs::Reach::Shows))]
    fn next_line(self, after_cr: bool) -> Reached
        ensures shows { (p : Place) → Shows self p → Shows result (next_line after_cr p) }
        ensures order { IsFrom self result }
    {
        let line = if self.line < LIMIT {
            self.line + 1
        } else {
            self.line
        };
        Reached {
            line,
            column: 0,
            after_cr,
        }
    }

    /// The place after characters that end no line.
    fn after_units(self, units: u64) -> Reached
        requires { units < 2 ^ 63 }
        ensures shows { (p : Place) → Shows self p → Shows result (further units p) }
        ensures order { IsFrom self result }
    {
        let column = if self.column < LIMIT {
            (self.column + units).min(LIMIT)
        } else {
            self.column
        };
        Reached {
            line: self.line,
            column,
            after_cr: false,
        }
    }

    fn after(self, byte: u8) -> Reached
        ensures shows { (p : Place) → Shows self p → Shows result (after_byte byte p) }
        ensures order { IsFrom self result }
    {
        if byte == b'\n' {
            if self.after_cr {
                self.after_units(0)
            } else {
                self.next_line(false)
            }
        } else if byte == b'\r' {
            self.next_line(true)
        } else {
            self.after_units(units(byte))
        }
    }

    fn after_text(self, text: &str) -> Reached
        ensures shows { (p : Place) → Shows self p → Shows result (after_text text.now p) }
        ensures order { IsFrom self result }
    {
        let mut reached = self;
        for byte in text.as_bytes() {
            reached = reached.after(*byte);
        }
        reached
    }
}

/// What holds a list of pairs: the list itself, or a reference to it.
pub trait HoldsPairs: Drop {
    ghost pairs: { Self → List Pair };

    /// The pairs.
    fn list(&self) -> &[(BytePos, LineCol)]
        ensures { result.now ≡ pairs self.now };

    /// Puts a pair at the list's end. Where memory is wanting, the list is as it was.
    fn add(&mut self, pair: (BytePos, LineCol)) -> std::result::Result<(), AllocError>
        ensures pushed { OnOk result (pairs self.new ≡ pairs self.old ++ (pair ∷ [])) }
        ensures same { OnErr result (pairs self.new ≡ pairs self.old) };
}

impl HoldsPairs for Vec<(BytePos, LineCol)> {
    ghost pairs = { λ list. list.items };

    #[inline(always)]
    fn list(&self) -> &[(BytePos, LineCol)] {
        self.as_slice()
    }

    #[inline(always)]
    fn add(&mut self, pair: (BytePos, LineCol)) -> std::result::Result<(), AllocError> {
        match self.push(pair) {
            Ok(()) => Ok(()),
            Err(_) => Err(AllocError),
        }
    }
}

impl<L: HoldsPairs> HoldsPairs for &mut L {
    ghost pairs = { λ list. L.pairs list.now };

    #[inline(always)]
    fn list(&self) -> &[(BytePos, LineCol)] {
        (**self).list()
    }

    #[inline(always)]
    fn add(&mut self, pair: (BytePos, LineCol)) -> std::result::Result<(), AllocError> {
        (**self).add(pair)
    }
}

/// What records positions: the list that holds them, and the place that was reached.
///
/// This writer's pairs stand in the order of their places, so one that is recorded twice is among those of the place
/// reached, at the list's end, or among those that were handed in.
#[derive(Drop)]
pub struct Positions<L: HoldsPairs> {
    list: L,
    handed_in: usize,
    /// The first pair that was recorded at the place reached.
    recent: usize,
    pending: Option<BytePos>,
    reached: Reached,
    ghost in_list: { (handed_in ≤ recent) ×
        (recent ≤ length (L.pairs list)) } by { Prim.hlevel props },
    ghost passed: { AllWithin (λ pair. IsBefore pair.1 reached) (L.pairs list)
        handed_in recent } by { Prim.hlevel props },
    ghost here: { AllWithin (λ pair. IsAt pair.1 reached) (L.pairs list)
        recent (length (L.pairs list)) } by { Prim.hlevel props },
}

impl<L: HoldsPairs> Positions<L> {
    ghost use Rattle.swc_ecma_codegen_text_writer.specs.Places.{origin};
    ghost use Rattle.swc_ecma_codegen_text_writer.specs.Positions.{pairs, Counts, Records};

    /// Nothing is written yet, and nothing is pending.
    pub fn new(list: L) -> Positions<L>
        ensures pairs { pairs result ≡ L.pairs list }
        ensures place { Counts result origin }
        ensures pending { result.pending ≡ None }
    {
        let handed_in = list.list().len();
        Positions {
            list,
            handed_in,
            recent: handed_in,
            pending: None,
            reached: Reached {
                line: 0,
                column: 0,
                after_cr: false,
            },
        }
    }

    /// A text was written.
    #[inline(always)]
    pub fn pass(&mut self, text: &str)
        ensures place { (p : Place) → Counts self.old p → Counts self.new (after_text text.now p) }
        ensures pairs { pairs self.new ≡ pairs self.old }
        ensures pending { self.new.pending ≡ self.old.pending }
    {
        self.pass_known(text, is_in_line(text.as_bytes()));
    }

    /// The same where it is known whether it stays in its line. Most stay in their line: "typeof" takes six columns.
    #[inline(always)]
    pub fn pass_known(&mut self, text: &str, stays_in_line: bool)
        requires { stays_in_line ≡ is_in_line text.now }
        ensures place { (p : Place) → Counts self.old p → Counts self.new (after_text text.now p) }
        ensures pairs { pairs self.new ≡ pairs self.old }
        ensures pending { self.new.pending ≡ self.old.pending }
    {
        if !text.is_empty() && stays_in_line {
            let reached = self.reached.after_units(text.len() as u64);
            self.move_to(reached);
            return;
        }
        self.pass_bytes(text);
    }

    /// The same, byte for byte.
    #[inline(never)]
    fn pass_bytes(&mut self, text: &str)
        ensures place { (p : Place) → Counts self.old p → Counts self.new (after_text text.now p) }
        ensures pairs { pairs self.new ≡ pairs self.old }
        ensures pending { self.new.pending ≡ self.old.pending }
    {
        let reached = self.reached.after_text(text);
        self.move_to(reached);
    }

    /// A place was reached that isn't before the last one.
    #[inline(always)]
    fn move_to(&mut self, reached: Reached)
        requires { IsFrom self.old.reached reached }
        ensures place { (p : Place) → Shows reached p → Counts self.new p }
        ensures pairs { pairs self.new ≡ pairs self.old }
        ensures pending { self.new.pending ≡ self.old.pending }
    {
        if reached.line != self.reached.line || reached.column != self.reached.column {
            self.recent = self.list.list().len();
        }
        self.reached = reached;
    }

    /// Whether a pair of the place reached stands in the list.
    fn stands(&self, pair: (BytePos, LineCol)) -> bool
        requires line { pair.1.line ≡ self.now.reached.line }
        requires column { pair.1.col ≡ self.now.reached.column }
        ensures { result ≡ has_pair pair (pairs self.now) }
    {
        let list = self.list.list();
        holds(&list[..self.handed_in], pair) || holds(&list[self.recent..], pair)
    }

    /// Records that what stands at `pos` in its source text was written at the place reached. Position 0, and a pair
    /// that stands in the list, do nothing.
    ///
    /// It answers `PositionTooLarge` where the line or the column is above `u32::MAX`, and `OutOfMemory` where the list
    /// can't grow; the list is then as it was.
    #[inline(always)]
    pub fn record(&mut self, pos: BytePos) -> Answer
        ensures pairs { (p : Place) → Counts self.old p →
            Records pos p (pairs self.old) (pairs self.new) result }
        ensures place { (p : Place) → Counts self.old p → Counts self.new p }
        ensures pending { self.new.pending ≡ self.old.pending }
    {
        if pos.0 == 0 {
            return Ok(());
        }
        self.note(pos)
    }

    /// Records a position that isn't 0.
    #[inline(never)]
    fn note(&mut self, pos: BytePos) -> Answer
        requires { 0 < pos.0 }
        ensures pairs { (p : Place) → Counts self.old p →
            Records pos p (pairs self.old) (pairs self.new) result }
        ensures place { (p : Place) → Counts self.old p → Counts self.new p }
        ensures pending { self.new.pending ≡ self.old.pending }
    {
        if self.reached.line >= LIMIT || self.reached.column >= LIMIT {
            return Err(Refusal::PositionTooLarge);
        }
        let place = LineCol {
            line: self.reached.line as u32,
            col: self.reached.column as u32,
        };
        let pair = (pos, place);
        if self.stands(pair) {
            return Ok(());
        }
        match self.list.add(pair) {
            Ok(()) => Ok(()),
            Err(_) => Err(Refusal::OutOfMemory),
        }
    }

    /// What held the list, with the pairs.
    pub fn into_list(self) -> L
        ensures { L.pairs result ≡ pairs self }
    {
        let Positions {
            list,
            handed_in: _,
            recent: _,
            pending: _,
            reached: _,
        } = self;
        list
    }

    /// What is written next, once the line has begun, stands at `pos`.
    pub fn point(&mut self, pos: BytePos)
        ensures pending { self.new.pending ≡ Some pos }
        ensures pairs { pairs self.new ≡ pairs self.old }
        ensures place { (p : Place) → Counts self.old p → Counts self.new p }
    {
        self.pending = Some(pos);
    }

    /// The pending position, which is pending no more.
    pub fn take_pending(&mut self) -> Option<BytePos>
        ensures result { result ≡ self.old.pending }
        ensures pending { self.new.pending ≡ None }
        ensures pairs { pairs self.new ≡ pairs self.old }
        ensures place { (p : Place) → Counts self.old p → Counts self.new p }
    {
        self.pending.take()
    }
}
