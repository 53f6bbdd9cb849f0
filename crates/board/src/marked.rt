// A board's own copy of a list, to take contracts out of.
ghost use Rattle.std.specs.Prelude.{◌≡◌, ℕ, ◌<◌, length};
ghost use Rattle.deck.specs.Contents.{data_of};

use crate::marks::{fit, is_in, keep_only};
use crate::unfit::Unfit;
use arrayvec::ArrayVec;
use deck::deck::Deck;
use rules::table::Contract;

// The caller's marks stay as they are; a deck has at most 2,048 contracts.
#[derive(Drop)]
pub struct Marked<'a> {
    deck: &'a Deck<'a>,
    marks: ArrayVec<u8, 2048>,
    ghost fits: { length marks.items ≡ length (data_of deck.now).contracts },
}

impl<'a> Marked<'a> {
    ghost use Rattle.board.specs.Marked.{Copied, contracts_of, deck_of, list_of, marks_of};
    ghost use Rattle.board.specs.Marks.{AnswersAs, KeptBy, marked};
    ghost use Rattle.matching.specs.Sets.{Set, common, less};

    // The list of these marks, if they fit the deck.
    pub fn of(deck: &'a Deck<'a>, marks: &[u8]) -> Result<Marked<'a>, Unfit>
        ensures { Copied deck.now marks.now result }
    {
        fit(deck, marks)?;
        let mut own = ArrayVec::new();
        own.try_extend_from_slice(marks).unwrap();
        Ok(Marked { deck, marks: own })
    }

    pub fn deck(&self) -> &'a Deck<'a>
        ensures { result.now ≡ deck_of self.now }
    {
        self.deck
    }

    pub fn contracts(&self) -> &'a [Contract]
        ensures { result.now ≡ contracts_of self.now }
    {
        self.deck.contracts()
    }

    pub fn marks(&self) -> &[u8]
        ensures { result.now ≡ marks_of self.now }
    {
        &self.marks
    }

    // Is contract k in the list?
    pub fn has(&self, k: u16) -> bool
        ensures { result ≡ list_of self.now k }
    {
        is_in(&self.marks, usize::from(k))
    }

    // Takes contract k out of the list, if it is there.
    pub fn take(&mut self, k: u16)
        ensures deck { deck_of self.new ≡ deck_of self.old }
        ensures less { list_of self.new ≡ less (list_of self.old) k }
    {
        let at = usize::from(k);
        if at < self.marks.len() {
            self.marks[at] = 0;
        }
    }

    // Keeps the contracts that a test keeps.
    pub fn keep<F: Fn(usize) -> bool>(&mut self, keeps: F)
        requires { (k : ℕ) → k < length (contracts_of self.old) → F.pre keeps k }
        ensures deck { deck_of self.new ≡ deck_of self.old }
        ensures each { KeptBy (λ f k b. F.post f k b) keeps (marks_of self.old) (marks_of self.new) }
        ensures kept { (p : Set) → AnswersAs (λ f k b. F.post f k b) keeps (length (contracts_of self.old)) p →
            marks_of self.new ≡ marked (length (contracts_of self.old)) (common (list_of self.old) p) }
    {
        keep_only(&mut self.marks, keeps);
    }
}
