// What the rules say of lists on a board, and what the board says.
use arrayvec::ArrayVec;
use board::explain::Explain;
use board::unfit::Unfit;
use deck::deck::Deck;
use std::process::Abort;

// The marks of a list, and the pair for each contract of the deck; what is kept has code 0.
#[derive(Clone, Copy)]
pub struct Trial(pub &'static [u8], pub &'static [(u8, u16)]);

// What is answered, or the number of the refusal.
pub fn said<T>(answer: Result<T, Unfit>) -> Result<T, u8> {
    answer.map_err(u8::from)
}

// `what` says which board and deck it is, `number` which list.
fn agrees_on<B: Explain>(
    rt: &impl Abort,
    what: &str,
    number: usize,
    board: &B,
    deck: &Deck,
    list: &[u8],
    pairs: &[(u8, u16)],
) {
    assert!(rt;
        list.len() <= 16 && list.len() == pairs.len(),
        "{what}, list {number}"
    );
    let mut marks: ArrayVec<u8, 16> = ArrayVec::try_from(list).unwrap();
    assert_eq!(rt;
        said(board.choose(deck, &mut marks)),
        Ok(()),
        "{what}, list {number}"
    );
    for (k, pair) in pairs.iter().enumerate() {
        assert_eq!(rt;
            marks.get(k).copied(),
            Some(u8::from(pair.0 == 0)),
            "{what}, list {number}, mark {k}"
        );
        assert_eq!(rt;
            said(board.why(deck, list, k as u16)),
            Ok(*pair),
            "{what}, list {number}, contract {k}"
        );
    }
}

pub fn agrees<B: Explain>(rt: &impl Abort, what: &str, board: &B, deck: &Deck, trials: &[Trial]) {
    for (i, trial) in trials.iter().enumerate() {
        agrees_on(rt, what, i, board, deck, trial.0, trial.1);
    }
}
