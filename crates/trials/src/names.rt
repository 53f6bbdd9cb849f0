// The bytes that stand for rules, and the names of layers.
use format::fault::Layer;
use rules::table::{Rule, UnknownRule};
use std::test::Fail;

#[test]
fn rules_of_bytes(rt: HostRuntime) {
    assert_eq!(rt; Rule::try_from(0), Ok(Rule::Rank));
    assert_eq!(rt; Rule::try_from(1), Ok(Rule::Lot));
    assert_eq!(rt; Rule::try_from(2), Ok(Rule::Term));
    assert_eq!(rt; Rule::try_from(3), Err(UnknownRule(3)));
    assert_eq!(rt; Rule::try_from(255), Err(UnknownRule(255)));
}

#[test]
fn names_of_layers(rt: HostRuntime) -> Result<(), Fail> {
    let heap = rt.alloc();
    assert_eq!(rt; Layer::Bytes.to_string(heap)?.as_str(), "bytes");
    assert_eq!(rt; Layer::Records.to_string(heap)?.as_str(), "records");
    assert_eq!(rt; Layer::Deck.to_string(heap)?.as_str(), "deck");
    Ok(())
}
