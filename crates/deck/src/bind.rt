// Binding a deck into a place that the caller lends.
ghost use Rattle.deck.specs.Binding.{Bound};
ghost use Rattle.rules.specs.Contents.{content_of};

use crate::agree::agrees;
use crate::deck::Deck;
use intake::counts::Counts;
use intake::fault::DeckFault;
use rules::table::Tables;

impl<'a> Deck<'a> {
    // Puts the deck of these bytes, tables and counts into this place, or leaves the deck that is there. The three come apart, and only here it shows that they fit.
    pub fn bind(
        &mut self,
        bytes: &'a [u8],
        tables: Tables<'a>,
        counts: Counts,
    ) -> Result<(), DeckFault>
        ensures { Bound bytes.now counts (content_of tables.entry) self.old self.new result }
    {
        if !agrees(bytes, tables, counts) {
            return Err(DeckFault::OtherTables);
        }
        *self = Deck::made(bytes, counts.firsts(tables));
        Ok(())
    }
}
