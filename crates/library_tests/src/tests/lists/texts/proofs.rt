//! Proofs that a list and a table decide alike, read piece by piece.
use agreement_check::{Difference, Shown, Stop, Valid, Why, Wrong, check_proof};
use field_boxes::Header;
use filter_reader::read_list;
use razor_base::{MemDesk, read_piece};
use std::alloc::Global;
use std::process::Abort;
use std::test::Fail;
use table_text::read_table;

/// Half of the sources is accepted, and all else discarded.
const LIST: &[u8] =
    b"@0.0.0.0/1\t0.0.0.0/0\t0 : 65535\t0 : 65535\t0x00/0x00\taccept\n@0.0.0.0/0\t0.0.0.0/0\t0 : 65535\t0 : 65535\t0x00/0x00\tdiscard\n";

/// The same in entries.
const TABLE: &[u8] =
    b"table 2 slot 144 composed 2 entries 2\n00000000/80000000 00000000/00000000 0000/0000 0000/0000 00/00 accept\n00000000/00000000 00000000/00000000 0000/0000 0000/0000 00/00 discard\n";

/// Only the accepted half.
const HALF_TABLE: &[u8] =
    b"table 2 slot 144 composed 1 entries 1\n00000000/80000000 00000000/00000000 0000/0000 0000/0000 00/00 accept\n";

/// A proof whose covers reach further than they have to, so that two pairs are open.
const PROOF: &[u8] =
    b"proof 1 rules 2 entries 2\ne r2\ne r2\ne r2\nr e2\nr e2\nr e2\np 2 1 r1\np 1 2 e1\npairs 2\n";

/// What is said of a proof of which some bytes were read before, and each read gives at most so many.
fn said(
    alloc: Global,
    most: usize,
    list: &[u8],
    table: &[u8],
    proof: &[u8],
) -> Result<Result<Valid, Stop>, Fail> {
    let list = read_list(alloc, list)?;
    let table = read_table(alloc, table)?;
    let mut desk = MemDesk::new(alloc);
    desk.add("proof", proof)?;
    desk.piece_limit(most.max(1));
    let mut buffer = [0; 32];
    let read = read_piece(&mut desk, "proof", &mut buffer)?;
    let told = check_proof(alloc, &list, &table, &mut desk, "proof", &mut buffer, read);
    Ok(told)
}

/// What is said of a proof that LIST and TABLE decide alike.
fn said_of<R: Abort + AllocGlobal>(
    rt: &R,
    proof: &[u8],
    told: Result<Valid, Stop>,
) -> Result<(), Fail> {
    for most in [1, 7, 32] {
        assert!(rt; said(rt.alloc(), most, LIST, TABLE, proof)? == told);
    }
    Ok(())
}

/// A wrong line.
fn wrong(line: u64, why: Why) -> Result<Valid, Stop> {
    Err(Stop::Wrong(Wrong { line, why }))
}

#[test]
fn a_proof_may_have_lines_for_all_open_pairs(rt: HostRuntime) -> Result<(), Fail> {
    let equal = Valid {
        shown: Shown::Equal,
        pairs: 2,
    };
    said_of(&rt, PROOF, Ok(equal))
}

#[test]
fn the_empty_list_and_the_empty_table_agree(rt: HostRuntime) -> Result<(), Fail> {
    let equal = Valid {
        shown: Shown::Equal,
        pairs: 0,
    };
    let table: &[u8] = b"table 2 slot 144 composed 0 entries 0\n";
    let proof: &[u8] = b"proof 1 rules 0 entries 0\ne r1\nr e1\npairs 0\n";
    assert!(rt; said(rt.alloc(), 32, b"", table, proof)? == Ok(equal));
    Ok(())
}

#[test]
fn pairs_rise(rt: HostRuntime) -> Result<(), Fail> {
    let proof: &[u8] =
        b"proof 1 rules 2 entries 2\ne r2\ne r2\ne r2\nr e2\nr e2\nr e2\np 1 2 e1\np 2 1 r1\npairs 2\n";
    said_of(&rt, proof, wrong(9, Why::Order))
}

#[test]
fn each_open_pair_has_a_line(rt: HostRuntime) -> Result<(), Fail> {
    let first: &[u8] =
        b"proof 1 rules 2 entries 2\ne r2\ne r2\ne r2\nr e2\nr e2\nr e2\np 1 2 e1\npairs 1\n";
    said_of(&rt, first, wrong(9, Why::PairMissing { rule: 2, entry: 1 }))?;
    let second: &[u8] =
        b"proof 1 rules 2 entries 2\ne r2\ne r2\ne r2\nr e2\nr e2\nr e2\np 2 1 r1\npairs 1\n";
    said_of(
        &rt,
        second,
        wrong(9, Why::PairMissing { rule: 1, entry: 2 }),
    )
}

#[test]
fn a_proof_ends_with_its_last_line(rt: HostRuntime) -> Result<(), Fail> {
    let end = PROOF.len();
    said_of(&rt, &PROOF[..end - 8], wrong(10, Why::EndsEarly))?;
    said_of(&rt, &PROOF[..end - 1], wrong(10, Why::Form))
}

/// A proof that LIST and HALF_TABLE first differ on a header.
fn difference_at<R: AllocGlobal>(rt: &R, proof: &[u8]) -> Result<Result<Valid, Stop>, Fail> {
    said(rt.alloc(), 32, LIST, HALF_TABLE, proof)
}

#[test]
fn a_difference_is_the_least(rt: HostRuntime) -> Result<(), Fail> {
    let header = Header::new([2_147_483_648, 0, 0, 0, 0]).ok_or("no header")?;
    let differ = Valid {
        shown: Shown::Differ(Difference {
            header,
            left: 2,
            right: 0,
        }),
        pairs: 0,
    };
    let least: &[u8] =
        b"proof 1 rules 2 entries 1 before 2147483648 0 0 0 0\ne r1\ne 103 r1 >\nr e1\nr 103 e1 >\nr 103 e1 >\npairs 0\n";
    assert!(rt; difference_at(&rt, least)? == Ok(differ));
    let later: &[u8] =
        b"proof 1 rules 2 entries 1 before 2147483648 0 0 0 1\ne r1\ne 103 r1 >\nr e1\nr 103 e1 >\nr 103 e1 >\npairs 0\n";
    assert!(rt; difference_at(&rt, later)? == wrong(3, Why::EntryCover));
    let alike: &[u8] = b"proof 1 rules 2 entries 1 before 2147483647 0 0 0 0\n";
    assert!(rt; difference_at(&rt, alike)? == wrong(1, Why::DecidedAlike));
    Ok(())
}
