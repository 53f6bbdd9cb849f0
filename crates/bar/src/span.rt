// Where the pairs of one trainee stand in a row of pairs: from the first to before the last. It is no `Range<u8>`, which is not `Copy` and would have to be cloned to be read.
#[derive(Clone, Copy, Default)]
pub struct Span {
    pub from: u8,
    pub to: u8,
}
