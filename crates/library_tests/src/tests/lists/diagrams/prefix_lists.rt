//! The cheapest prefix lists of worked functions.
ghost use Rattle.std.specs.Prelude.{◌≡◌, ◌≤◌, ◌^◌, length};
ghost use Rattle.prefix_min.specs.Pieces.{Follow, reach, weight_from};

use field_boxes::Prefix;
use prefix_min::{Piece, PrefixRow, minimise};
use std::alloc::Global;
use std::process::Abort;
use std::test::Fail;

/// Finds the cheapest list, and compares its cost and its rows: value, length and label of each.
fn expect(
    rt: &impl Abort,
    alloc: Global,
    pieces: &[Piece],
    weights: &[u128],
    width: u8,
    cost: u128,
    rows: &[(u32, u8, u32)],
) -> Result<(), Fail>
    requires wide { width ≤ 32 }
    requires follow { Follow (length weights.now) 0 pieces.now }
    requires whole { reach 0 pieces.now ≡ 2 ^ width }
    requires light { weight_from weights.now 0 pieces.now ≤ 2 ^ 104 }
{
    let found = minimise(alloc, pieces, weights, width)?;
    assert_eq!(rt; found.cost, cost);
    assert_eq!(rt; found.rows.len(), rows.len());
    for (row, &(value, len, label)) in found.rows.iter().zip(rows) {
        let prefix = Prefix { value, len };
        assert_eq!(rt; *row, PrefixRow { prefix, label });
    }
    Ok(())
}

#[test]
fn weights_decide(rt: HostRuntime) -> Result<(), Fail> {
    // Eighths A B B B B B B A: the shortest list would cost 11.
    expect(
        &rt,
        rt.alloc(),
        &[
            Piece { hi: 31, label: 0 },
            Piece { hi: 223, label: 1 },
            Piece { hi: 255, label: 0 },
        ],
        &[5, 1],
        8,
        9,
        &[(32, 3, 1), (192, 3, 1), (64, 2, 1), (128, 2, 1), (0, 0, 0)],
    )?;
    // Quarters A B A B.
    expect(
        &rt,
        rt.alloc(),
        &[
            Piece { hi: 63, label: 0 },
            Piece { hi: 127, label: 1 },
            Piece { hi: 191, label: 0 },
            Piece { hi: 255, label: 1 },
        ],
        &[5, 1],
        8,
        7,
        &[(64, 2, 1), (192, 2, 1), (0, 0, 0)],
    )?;
    // Sixteenths: A, seven B, seven A, B. Rows at constant parts and at the field alone would cost 5.
    expect(
        &rt,
        rt.alloc(),
        &[
            Piece { hi: 15, label: 0 },
            Piece { hi: 127, label: 1 },
            Piece { hi: 239, label: 0 },
            Piece { hi: 255, label: 1 },
        ],
        &[1, 1],
        8,
        4,
        &[(0, 4, 0), (240, 4, 1), (0, 1, 1), (0, 0, 0)],
    )?;
    // One label needs one row.
    expect(
        &rt,
        rt.alloc(),
        &[Piece {
            hi: 4_294_967_295,
            label: 0,
        }],
        &[7],
        32,
        7,
        &[(0, 0, 0)],
    )
}
