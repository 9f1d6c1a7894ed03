//! Diagrams of rules, diagrams changed in one box, and what is asked of them.
ghost use Rattle.std.specs.Prelude.{◌≡◌};
ghost use Rattle.field_boxes.specs.Headline.Fields.{stated};
ghost use Rattle.node_store.specs.Diagram.{level_of};

use crate::tests::lists::boxes::{ADDRESSES, PORTS, protocols};
use fdd_build::{build, over, under, under_rule};
use fdd_ops::agrees_where;
use field_boxes::{Header, Ports, Rule, Span};
use node_store::{NodeId, Store, stated_order};
use std::process::Abort;
use std::test::Fail;
use table_compose::cost;

/// What the diagram costs, and what it answers at some destination ports and protocols.
fn expect<R: Abort + AllocGlobal>(
    rt: &R,
    store: &Store,
    root: NodeId,
    least: u128,
    answers: &[(u32, u32, u32)],
) -> Result<(), Fail>
    requires { level_of store.now root.0 ≡ stated }
{
    assert!(rt; cost(rt.alloc(), store, root)? == least);
    for &(port, protocol, answer) in answers {
        let header = Header::new([1, 2, 3, port, protocol]).ok_or("no header")?;
        assert_eq!(rt; store.answer(root, &header), answer, "at {port} {protocol}");
    }
    Ok(())
}

/// Boxes under and over one another.
fn expect_boxes<R: Abort + AllocGlobal>(rt: &R, store: &mut Store) -> Result<(), Fail> {
    let alloc = rt.alloc();
    let none = build(alloc, store, &stated_order(), &[])?;
    expect(rt, store, none, 1, &[(4, 0, 0), (4, 6, 0), (4, 255, 0)])?;
    let six = under(alloc, store, none, &protocols(6, 6), 1)?;
    let both = under(alloc, store, six, &protocols(0, 255), 2)?;
    let answers = [(4, 0, 2), (4, 5, 2), (4, 6, 1), (4, 7, 2), (4, 255, 2)];
    expect(rt, store, both, 2, &answers)?;
    let two = over(alloc, store, &protocols(6, 6), 2, both)?;
    let answers = [(4, 0, 2), (4, 5, 2), (4, 6, 2), (4, 7, 2), (4, 255, 2)];
    expect(rt, store, two, 1, &answers)?;
    let hidden = over(alloc, store, &protocols(6, 17), 0, both)?;
    let answers = [(4, 5, 2), (4, 6, 0), (4, 17, 0), (4, 18, 2)];
    expect(rt, store, hidden, 4, &answers)
}

/// Whether a diagram of two answers decides as asked wherever it answers 1 itself.
fn expect_agreement<R: Abort + AllocGlobal>(rt: &R, store: &mut Store) -> Result<(), Fail> {
    let alloc = rt.alloc();
    let none = build(alloc, store, &stated_order(), &[])?;
    let six = under(alloc, store, none, &protocols(6, 6), 1)?;
    let both = under(alloc, store, six, &protocols(0, 255), 2)?;
    let all = protocols(0, 255);
    assert!(rt; agrees_where(alloc, store, &all, both, 1, both, 1)?);
    assert!(rt; !agrees_where(alloc, store, &all, both, 1, both, 2)?);
    Ok(())
}

/// Web traffic, by two ports.
fn web() -> Result<Rule, Fail> {
    let two = [Span { lo: 80, hi: 80 }, Span { lo: 443, hi: 443 }];
    Ok(Rule {
        source: ADDRESSES,
        destination: ADDRESSES,
        ports: [
            Ports::of(&[PORTS]).ok_or("no ports")?,
            Ports::of(&two).ok_or("no ports")?,
        ],
        protocol: Span { lo: 6, hi: 6 },
        decision: 1,
    })
}

/// The rule under a diagram that answers nothing.
fn expect_web<R: Abort + AllocGlobal>(rt: &R, store: &mut Store) -> Result<(), Fail> {
    let none = build(rt.alloc(), store, &stated_order(), &[])?;
    let root = under_rule(rt.alloc(), store, none, &web()?)?;
    let answers = [(443, 6, 1), (80, 6, 1), (81, 6, 0), (443, 17, 0)];
    expect(rt, store, root, 5, &answers)
}

/// All of these in one store.
fn expect_all<R: Abort + AllocGlobal>(rt: &R, store: &mut Store) -> Result<(), Fail> {
    expect_boxes(rt, store)?;
    expect_agreement(rt, store)?;
    expect_web(rt, store)
}

#[test]
fn boxes_and_rules_go_under_and_over_diagrams(rt: HostRuntime) -> Result<(), Fail> {
    let mut store = Store::new(rt.alloc());
    expect_all(&rt, &mut store)
}
