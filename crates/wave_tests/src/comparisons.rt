// Two memories beside each other.
use wave::access::Access::{Read, Write};
use wave::access::answer_alike;
use wave::board::Board;
use wave::ram::Ram;
use wave::rom::Rom;

#[test]
fn of_one_meaning(rt: HostRuntime) {
    let mut both = [1, 2];
    let mut low = [1];
    let mut high = [2];
    let mut ram = Ram::new(&mut both);
    let mut board = Board {
        first: Ram::new(&mut low),
        second: Ram::new(&mut high),
    };
    assert!(rt;
        answer_alike(
            &mut ram,
            &mut board,
            &[Read(1), Write(1, 9), Read(1), Write(2, 9), Read(2), Read(0)],
        )
    );
}

#[test]
fn of_other_places_for_writes(rt: HostRuntime) {
    let mut bytes = [1, 2];
    let mut ram = Ram::new(&mut bytes);
    let mut rom = Rom::new(&[1, 2]);
    assert!(rt; answer_alike(&mut ram, &mut rom, &[Read(0), Read(1), Read(2)]));
    assert!(rt; !answer_alike(&mut ram, &mut rom, &[Write(0, 1), Read(0)]));
}

#[test]
fn of_other_bytes_in_the_last_place(rt: HostRuntime) {
    let mut one = Rom::new(&[1, 2]);
    let mut other = Rom::new(&[1, 3]);
    assert!(rt; !answer_alike(&mut one, &mut other, &[Read(0), Read(1), Read(2)]));
    assert!(rt; answer_alike(&mut one, &mut other, &[Read(0), Read(2)]));
}
