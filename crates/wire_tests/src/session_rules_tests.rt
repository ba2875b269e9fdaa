// What no clause says: that the calls succeed, at the limits and over a port in memory.
use crate::rows::{same, same_bytes};
use arc_io::{ListClock, ListNoise, MemPort, MemSink, MemSource};
use session_rules::{PIECE, read_piece, room_behind, up_to};
use std::test::Fail;

#[test]
fn the_limit_leaves_room(rt: HostRuntime) {
    let limit = 1_099_511_627_776;
    same(&rt, &room_behind(0), &limit, "nothing was taken");
    same(&rt, &room_behind(limit - 1), &1, "all but one was taken");
    same(&rt, &room_behind(limit), &0, "all was taken");
}

#[test]
fn no_more_than_the_first_bytes_are_given(rt: HostRuntime) {
    same_bytes(&rt, up_to(b"abc", 0), b"", "none");
    same_bytes(&rt, up_to(b"abc", 2), b"ab", "two");
    same_bytes(&rt, up_to(b"abc", 3), b"abc", "three");
    same_bytes(&rt, up_to(b"abc", u64::MAX), b"abc", "all");
}

#[test]
fn a_piece_is_read_to_the_front(rt: HostRuntime) -> Result<(), Fail> {
    let alloc = rt.alloc();
    let input = b"hello".to_vec(alloc)?;
    let mut port = MemPort {
        source: MemSource::new(input, Vec::new(alloc)),
        sink: MemSink::new(alloc, Vec::new(alloc)),
        clock: ListClock::new(Vec::new(alloc)),
        noise: ListNoise::new(Vec::new(alloc)),
    };
    let mut buffer = [0; PIECE];
    same(
        &rt,
        &read_piece(&mut port, &mut buffer, 3),
        &Ok(3),
        "a piece",
    );
    same_bytes(&rt, &buffer[..4], b"hel\0", "its bytes");
    drop(port);
    Ok(())
}
