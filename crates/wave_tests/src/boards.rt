// Boards of RAM and ROM, and boards of boards.
use crate::cases::{PAST_END, READ_ONLY, WRITTEN, byte, check_cases};
use wave::access::Access::{Read, Write};
use wave::board::Board;
use wave::memory::Source;
use wave::ram::Ram;
use wave::rom::Rom;

#[test]
fn ram_before_rom(rt: HostRuntime) {
    let mut low = [1, 2];
    let mut board = Board {
        first: Ram::new(&mut low),
        second: Rom::new(&[3, 4, 5]),
    };
    assert_eq!(rt; board.size(), 5);
    let cases = [
        (Write(1, 9), WRITTEN),
        (Write(2, 9), READ_ONLY),
        (Write(5, 9), PAST_END),
        (Read(1), byte(9)),
        (Read(2), byte(3)),
        (Read(4), byte(5)),
        (Read(5), PAST_END),
    ];
    check_cases(&rt, &mut board, &cases);
    assert_eq!(rt; low, [1, 9]);
}

#[test]
fn empty_parts(rt: HostRuntime) {
    let mut bytes = [7];
    let mut board = Board {
        first: Rom::new(&[]),
        second: Ram::new(&mut bytes),
    };
    check_cases(
        &rt,
        &mut board,
        &[
            (Write(0, 8), WRITTEN),
            (Read(0), byte(8)),
            (Read(1), PAST_END),
        ],
    );
    let mut nothing = Board {
        first: Rom::new(&[]),
        second: Rom::new(&[]),
    };
    check_cases(
        &rt,
        &mut nothing,
        &[(Read(0), PAST_END), (Write(0, 1), PAST_END)],
    );
}

#[test]
fn board_of_boards(rt: HostRuntime) {
    let mut one = [1];
    let mut three = [3];
    let mut board = Board {
        first: Board {
            first: Ram::new(&mut one),
            second: Rom::new(&[2]),
        },
        second: Board {
            first: Ram::new(&mut three),
            second: Rom::new(&[4]),
        },
    };
    let cases = [
        (Write(0, 10), WRITTEN),
        (Write(1, 20), READ_ONLY),
        (Write(2, 30), WRITTEN),
        (Write(3, 40), READ_ONLY),
        (Write(4, 50), PAST_END),
        (Read(0), byte(10)),
        (Read(1), byte(2)),
        (Read(2), byte(30)),
        (Read(3), byte(4)),
    ];
    check_cases(&rt, &mut board, &cases);
}

#[test]
fn cut_at_the_limit(rt: HostRuntime) {
    let low = [1; 100_000];
    let mut high = [2; 100_000];
    let mut board = Board {
        first: Rom::new(&low),
        second: Ram::new(&mut high),
    };
    let cases = [
        (Write(131_071, 9), WRITTEN),
        (Write(131_072, 9), PAST_END),
        (Read(131_072), PAST_END),
        (Read(199_999), PAST_END),
    ];
    check_cases(&rt, &mut board, &cases);
    assert_eq!(rt; high.get(31_071).copied(), Some(9));
    assert_eq!(rt; high.get(31_072).copied(), Some(2));
}
