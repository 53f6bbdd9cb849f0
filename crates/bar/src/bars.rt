// Pairs of trainee and dredger that are barred.
ghost use Rattle.std.specs.Prelude.{◌≡◌, ℕ, ◌<◌, ◌≤◌, length, if◌then◌else◌, nat_eq};
ghost use Rattle.bar.specs.Bars.{Spans, bars, span_at, widened};
ghost use Rattle.rules.specs.Contents.{bar_at};

use crate::span::Span;
use arrayvec::ArrayVec;
use board::marks::keep_only;
use deck::deck::Deck;
use rules::table::{Barring, Contract};

// Each trainee has a span that holds all of their pairs, so that a contract is compared with those of its trainee alone.
// Laws take a board as a value, of which only its fields' lists are known: how many pairs and spans there are is therefore an invariant.
#[derive(Drop)]
pub struct Bars {
    pairs: ArrayVec<Barring, 128>,
    spans: [Span; 256],
    ghost few: { length pairs.items ≤ 128 },
    ghost wide: { length spans ≡ 256 },
    ghost spanned: { Spans spans pairs.items (length pairs.items) },
}

// The span of a trainee takes in place i.
fn widen(spans: &mut [Span; 256], trainee: u16, i: u8)
    requires known { trainee < 256 }
    requires few { i < 128 }
    ensures { (t : ℕ) → span_at spans.new t
        ≡ (if nat_eq t trainee then widened (span_at spans.old t) i else span_at spans.old t) }
{
    let span = &mut spans[usize::from(trainee)];
    if span.to == 0 {
        span.from = i;
    }
    span.to = i + 1;
}

// A span for each trainee.
fn spans_of(bars: &[Barring]) -> [Span; 256]
    requires few { length bars.now ≤ 128 }
    requires known { (k : ℕ) → k < length bars.now → (bar_at bars.now k).trainee < 256 }
    ensures { Spans result bars.now (length bars.now) }
{
    let mut spans = [Span::default(); 256];
    for (i, bar) in bars.iter().enumerate() {
        widen(&mut spans, bar.trainee, i as u8);
    }
    spans
}

// Does one of the pairs bar the contract?
fn any_bars(pairs: &[Barring], c: &Contract) -> bool
    ensures { result ≡ bars pairs.now c.now }
{
    pairs.iter().any(|pair| pair.trainee == c.trainee && pair.dredger == c.dredger)
}

impl Bars {
    ghost use Rattle.bar.specs.Bar.{pairs_of};
    ghost use Rattle.bar.specs.Bars.{barred};
    ghost use Rattle.board.specs.Marks.{member};
    ghost use Rattle.deck.specs.Contents.{data_of};
    ghost use Rattle.matching.specs.Sets.{minus};

    pub fn of(deck: &Deck) -> Bars
        ensures { pairs_of result ≡ (data_of deck.now).bars }
    {
        let bars = deck.bars();
        Bars {
            // a deck has at most 128 bars
            pairs: ArrayVec::try_from(bars).unwrap(),
            spans: spans_of(bars),
        }
    }

    // The span of a trainee; one that no bar can name has none.
    fn span_of(&self, trainee: u16) -> Span
        ensures { result ≡ span_at self.now.spans trainee }
    {
        self.spans
            .get(usize::from(trainee))
            .copied()
            .unwrap_or_default()
    }

    // Is the contract barred?
    pub(crate) fn bars(&self, c: &Contract) -> bool
        ensures { result ≡ bars (pairs_of self.now) c.now }
    {
        let span = self.span_of(c.trainee);
        any_bars(&self.pairs[usize::from(span.from)..usize::from(span.to)], c)
    }

    // Takes the barred contracts out of the marks.
    pub(crate) fn strike(&self, contracts: &[Contract], marks: &mut [u8])
        requires { length marks.old ≡ length contracts.now }
        ensures { member marks.new ≡ minus (member marks.old) (barred (pairs_of self.now) contracts.now) }
    {
        keep_only(marks, |k| !self.bars(&contracts[k]));
    }
}
