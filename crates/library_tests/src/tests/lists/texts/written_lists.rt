//! Lists as they are written.
use filter_reader::{read_list, write_list};
use razor_base::MemSink;
use std::test::Fail;

/// Lists, each with the text that is written for it.
const WRITTEN: [(&[u8], &[u8]); 4] = [
    (b"", b""),
    (
        b"@10.7.3.9/24 0.0.0.0/0 0:65535 53:53 0X11/0Xff deny",
        b"@10.7.3.0/24\t0.0.0.0/0\t0 : 65535\t53 : 53\t0x11/0xFF\tdeny\n",
    ),
    (
        b"# ports\r\n@1.2.3.4/32 255.255.255.255/0 443 : 443 , 80 : 80,81 : 90 0 : 9,10 : 65535 0x6/0x0 0x0/0x1\r\n",
        b"@1.2.3.4/32\t0.0.0.0/0\t80 : 90,443 : 443\t0 : 65535\t0x00/0x00\n",
    ),
    (
        b"@0.0.0.0/0 0.0.0.0/0 1:1 1:1 0xfa/0xff a\n@0.0.0.0/0 0.0.0.0/0 1:1 1:1 0xa/0xff\n@0.0.0.0/0 0.0.0.0/0 1:1 1:1 0xa/0xff a",
        b"@0.0.0.0/0\t0.0.0.0/0\t1 : 1\t1 : 1\t0xFA/0xFF\ta\n@0.0.0.0/0\t0.0.0.0/0\t1 : 1\t1 : 1\t0x0A/0xFF\n@0.0.0.0/0\t0.0.0.0/0\t1 : 1\t1 : 1\t0x0A/0xFF\ta\n",
    ),
];

#[test]
fn writes_each_rule_as_a_line(rt: HostRuntime) -> Result<(), Fail> {
    for (text, written) in WRITTEN {
        let Ok(list) = read_list(rt.alloc(), text) else {
            panic!(rt);
        };
        let mut out = MemSink::new(rt.alloc(), 512)?;
        assert!(rt; write_list(&list, &mut out).is_ok());
        assert!(rt; out.bytes() == written);
        let Ok(again) = read_list(rt.alloc(), out.bytes()) else {
            panic!(rt);
        };
        assert!(rt; again.rules.as_slice() == list.rules.as_slice());
        assert!(rt; again.flagged == 0);
        let mut short = MemSink::new(rt.alloc(), 8)?;
        assert!(rt; write_list(&list, &mut short).is_ok() == written.is_empty());
    }
    Ok(())
}
