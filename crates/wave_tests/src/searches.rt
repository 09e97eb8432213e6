// The stop search at each edge.
use std::process::Abort;
use wave::board::Board;
use wave::memory::Source;
use wave::rom::Rom;
use wave::search::first_stop;

// Each place to start from, and what is found.
fn check_found<M: Source>(rt: &impl Abort, memory: &M, found: &[(usize, Option<usize>)]) {
    for (from, stop) in found {
        assert_eq!(rt; first_stop(memory, *from), *stop);
    }
}

#[test]
fn from_each_place(rt: HostRuntime) {
    let rom = Rom::new(&[0xFF, 0xFE, 0xFF, 0x7F]);
    check_found(
        &rt,
        &rom,
        &[
            (0, Some(0)),
            (1, Some(2)),
            (2, Some(2)),
            (3, None),
            (4, None),
            (5, None),
            (usize::MAX, None),
        ],
    );
}

#[test]
fn in_nothing(rt: HostRuntime) {
    check_found(&rt, &Rom::new(&[]), &[(0, None)]);
}

#[test]
fn across_a_board(rt: HostRuntime) {
    let board = Board {
        first: Rom::new(&[0, 1]),
        second: Rom::new(&[2, 0xFF]),
    };
    check_found(&rt, &board, &[(0, Some(3)), (3, Some(3)), (4, None)]);
}

#[test]
fn at_the_last_place_that_is_used(rt: HostRuntime) {
    let mut bytes = [0; 131_073];
    bytes[131_072] = 0xFF;
    check_found(&rt, &Rom::new(&bytes), &[(0, None)]);
    bytes[131_071] = 0xFF;
    check_found(
        &rt,
        &Rom::new(&bytes),
        &[
            (0, Some(131_071)),
            (131_071, Some(131_071)),
            (131_072, None),
        ],
    );
}
