//! The numbers of the attempts.
use acng_site::{MemoryOrigin, NoGate, Untold};
use std::test::Fail;

#[test]
fn attempts_are_drawn_one_by_one_or_sixteen_at_once(rt: HostRuntime) -> Result<(), Fail> {
    let alloc = rt.alloc();
    let (_, mut right) = MemoryOrigin::<Untold, NoGate>::start(alloc, &[], 1, NoGate)?;
    right.skip_to(5);
    let first = right.draw();
    assert_eq!(rt; first.number(), 5);
    first.give_up();
    let mut tries = right.draw_sixteen();
    assert_eq!(rt; right.next(), 22);
    for number in 6..10 {
        assert!(rt; tries.left() >= 1);
        assert_eq!(rt; tries.next(), number);
        let drawn = tries.draw();
        assert_eq!(rt; drawn.number(), number);
        drawn.give_up();
    }
    assert_eq!(rt; tries.left(), 12);
    tries.give_up();
    assert_eq!(rt; right.next(), 22);
    Ok(())
}
