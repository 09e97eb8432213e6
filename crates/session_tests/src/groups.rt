// Groups that divide the eight voices, and groups that do not.
use session::groups::divides;

const GROUPS: [(&[u8], bool); 10] = [
    (&[], false),
    (&[0xFF], true),
    (&[0xFF, 0x00], true),
    (&[0x00], false),
    (&[0x0F, 0xF0], true),
    (&[0x0F, 0xE0], false),
    (&[0x1F, 0xF0], false),
    (&[0x80, 0x55, 0x2A], true),
    (&[0x01, 0x02, 0x04, 0x08, 0x10, 0x20, 0x40, 0x80], true),
    (&[0xFF, 0x01, 0xFE], false),
];

#[test]
fn divided(rt: HostRuntime) {
    for (groups, whole) in GROUPS {
        assert_eq!(rt; divides(groups), whole);
    }
}
