//! Of lists, certificates and tables.
use super::check;
use agreement_check::{Counts, Stop as ProofStop, Why as ProofWhy, Wrong as WrongLine};
use box_partition::CertError;
use field_boxes::Header;
use filter_reader::{ListError, Reason};
use partition_check::{NotPrefix, Stop, Why, Wrong};
use std::test::Fail;
use table_compose::ComposeError;

/// Why a certificate is wrong, in words.
const WHYS: [(Why, &str); 7] = [
    (Why::Form, "wrong row 4: form"),
    (Why::NotNext, "wrong row 4: not the next box"),
    (Why::RuleClaim, "wrong row 4: rule claim"),
    (Why::EntryClaim, "wrong row 4: entry claim"),
    (
        Why::Decisions { left: 1, right: 2 },
        "wrong row 4: decisions differ, number 1 of the list and number 2 of the table",
    ),
    (Why::EndsEarly, "wrong row 4: ends early"),
    (
        Why::Count {
            stated: 5,
            found: 6,
        },
        "wrong row 4: count differs, stated 5 found 6",
    ),
];

#[test]
fn errors_of_lists_say_what_is_wrong(rt: HostRuntime) -> Result<(), Fail> {
    let bad = ListError::BadLine {
        line: 7,
        reason: Reason::PortOrder,
    };
    check(&rt, &bad, "line 7: port order")?;
    check(&rt, &ListError::Memory, "memory was refused")?;
    let many = ComposeError::TooMany {
        needed: 262_145,
        limit: 262_144,
    };
    check(&rt, &many, "262145 entries needed, limit 262144")?;
    check(&rt, &ComposeError::Memory, "memory was refused")
}

#[test]
fn errors_of_certificates_say_what_is_wrong(rt: HostRuntime) -> Result<(), Fail> {
    for (why, words) in WHYS {
        check(&rt, &Stop::Wrong(Wrong { row: 4, why }), words)?;
    }
    check(&rt, &Stop::ReadFault, "a read failed")?;
    let long = "the certificate is longer than the limit";
    check(&rt, &Stop::TooLong, long)?;
    let header = Header::new([10, 20, 30, 40, 50]).ok_or("no header")?;
    let differs = CertError::Differs {
        header,
        left: 1,
        right: 2,
    };
    let apart = "list and table differ on the header [10, 20, 30, 40, 50]";
    let other = "the word of entry 3, counted from 0, is not a prefix in each field";
    check(&rt, &differs, apart)?;
    check(&rt, &NotPrefix { entry: 3 }, other)?;
    check(&rt, &CertError::NotPrefix { entry: 3 }, other)?;
    check(&rt, &CertError::Fault, "a write failed")?;
    check(&rt, &CertError::Memory, "memory was refused")
}

/// Why a proof is wrong, in words.
const PROOF_WHYS: [(ProofWhy, &str); 10] = [
    (ProofWhy::Form, "wrong line 4: form"),
    (
        ProofWhy::CountsDiffer {
            stated: Counts {
                rules: 1,
                entries: 2,
            },
            found: Counts {
                rules: 3,
                entries: 4,
            },
        },
        "wrong line 4: counts differ, stated 1 2 found 3 4",
    ),
    (
        ProofWhy::DecidedAlike,
        "wrong line 4: decisions do not differ",
    ),
    (ProofWhy::Order, "wrong line 4: order"),
    (ProofWhy::EntryCover, "wrong line 4: cover of entry"),
    (ProofWhy::RuleCover, "wrong line 4: cover of rule"),
    (ProofWhy::PairCover, "wrong line 4: cover of pair"),
    (
        ProofWhy::PairMissing { rule: 5, entry: 6 },
        "wrong line 4: pair 5 6 missing",
    ),
    (
        ProofWhy::PairsDiffer {
            stated: 7,
            found: 8,
        },
        "wrong line 4: counts differ, stated 7 found 8",
    ),
    (ProofWhy::EndsEarly, "wrong line 4: ends early"),
];

#[test]
fn errors_of_proofs_say_what_is_wrong(rt: HostRuntime) -> Result<(), Fail> {
    for (why, words) in PROOF_WHYS {
        check(&rt, &ProofStop::Wrong(WrongLine { line: 4, why }), words)?;
    }
    check(&rt, &ProofStop::ReadFault, "a read failed")?;
    let long = "the proof is longer than the limit";
    check(&rt, &ProofStop::TooLong, long)?;
    check(&rt, &ProofStop::Memory, "memory was refused")
}
