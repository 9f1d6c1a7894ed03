//! What lists cost in an order of the fields, and their composed tables.

use field_boxes::Order;
use field_order::cost_in;
use filter_reader::read_list;
use rule_compilation::compose_in;
use std::alloc::Global;
use std::test::Fail;
use table_compose::ComposeError;

/// Lists, and what each costs in the stated order.
const COSTS: [(&[u8], u128); 7] = [
    (b"", 1),
    (
        b"@0.0.0.0/0 0.0.0.0/0 0 : 65535 0 : 65535 0x06/0xFF accept\n",
        2,
    ),
    (
        b"@0.0.0.0/0 0.0.0.0/0 1 : 65535 0 : 65535 0x00/0x00 accept\n",
        2,
    ),
    (
        b"@0.0.0.0/0 0.0.0.0/0 1 : 65534 1 : 65534 0x00/0x00 accept\n",
        5,
    ),
    (
        b"@0.0.0.0/0 10.0.0.0/8 0 : 65535 0 : 65535 0x06/0xFF accept\n@0.0.0.0/0 0.0.0.0/0 0 : 65535 0 : 65535 0x00/0x00 deny\n",
        3,
    ),
    (
        b"@0.0.0.0/0 128.0.0.0/1 0 : 65535 0 : 65535 0x06/0xFF accept\n@0.0.0.0/0 0.0.0.0/1 0 : 65535 0 : 65535 0x00/0x00 deny\n",
        3,
    ),
    (
        b"@0.0.0.0/0 10.0.0.0/8 0 : 65535 0 : 65535 0x06/0xFF accept\n",
        3,
    ),
];

/// Three networks for protocol 6, and all else denied.
const THREE: &[u8] =
    b"@0.0.0.0/0 10.0.0.0/8 0 : 65535 0 : 65535 0x06/0xFF accept\n@0.0.0.0/0 20.0.0.0/8 0 : 65535 0 : 65535 0x06/0xFF accept\n@0.0.0.0/0 40.0.0.0/8 0 : 65535 0 : 65535 0x06/0xFF accept\n@0.0.0.0/0 0.0.0.0/0 0 : 65535 0 : 65535 0x00/0x00 deny\n";

/// How many entries the composed table of the three networks has in the order.
fn count(alloc: Global, fields: [u8; 5], limit: u32) -> Result<Result<usize, ComposeError>, Fail> {
    let order = Order::new(fields).ok_or("no order")?;
    let list = read_list(alloc, THREE)?;
    Ok(compose_in(alloc, &order, &list.rules, &list.names, limit).map(|entries| entries.len()))
}

/// What the list costs in the stated order.
fn cost(alloc: Global, text: &[u8]) -> Result<u128, Fail> {
    let order = Order::new([0, 1, 2, 3, 4]).ok_or("no order")?;
    let list = read_list(alloc, text)?;
    let cost = cost_in(alloc, &list.rules, &order)?;
    Ok(cost)
}

/// As many entries as the least cost in the order, and none where that is above the limit.
#[test]
fn lists_cost_what_is_worked_out(rt: HostRuntime) -> Result<(), Fail> {
    for (text, worked) in COSTS {
        assert_eq!(rt; cost(rt.alloc(), text)?, worked);
    }
    let stated = [0, 1, 2, 3, 4];
    let refused = ComposeError::TooMany {
        needed: 7,
        limit: 6,
    };
    assert_eq!(rt; count(rt.alloc(), stated, 7)?, Ok(7));
    assert_eq!(rt; count(rt.alloc(), stated, 6)?, Err(refused));
    assert_eq!(rt; count(rt.alloc(), [0, 2, 3, 4, 1], 6)?, Ok(5));
    Ok(())
}
