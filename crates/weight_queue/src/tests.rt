use crate::WeightQueue;
use std::alloc::AllocError;

#[test]
fn items_come_by_key_and_are_counted(rt: HostRuntime) -> Result<(), AllocError> {
    let mut queue: WeightQueue<u8> = WeightQueue::new(rt.alloc());
    assert!(rt; queue.pop().is_none());
    assert_eq!(rt; queue.pops(), 0);
    queue.reserve(4)?;
    queue.push(30, b'g');
    queue.push(5, b'x');
    queue.push(4294967295, b'z');
    queue.push(25, b'f');
    assert_eq!(rt; queue.len(), 4);
    for (key, item) in [(5, b'x'), (25, b'f'), (30, b'g'), (4294967295, b'z')] {
        match queue.pop() {
            Some((k, i)) => assert!(rt; k == key && i == item),
            None => assert!(rt; false),
        }
    }
    assert_eq!(rt; queue.pops(), 4);
    assert!(rt; queue.pop().is_none());
    assert_eq!(rt; queue.pops(), 4);
    assert_eq!(rt; queue.len(), 0);
    Ok(())
}
