//! Bytes and queues, made from a `Vec` and turned back into a `Vec`.

use nr_rev::{Bytes, Queue};
use std::test::Fail;

#[test]
fn bytes_and_queues_are_made_of_a_vec_and_given_back(rt: HostRuntime) -> Result<(), Fail> {
    let bytes = Bytes::from(Vec::from_slice(rt.alloc(), b"hi")?);
    assert_eq!(rt; bytes.as_slice(), b"hi".as_slice());
    assert_eq!(rt; Vec::from(bytes).as_slice(), b"hi".as_slice());
    let queue = Queue::from(Vec::from_slice(rt.alloc(), &[1, 3])?);
    assert_eq!(rt; queue.as_slice(), [1, 3].as_slice());
    assert_eq!(rt; Vec::from(queue).as_slice(), [1, 3].as_slice());
    Ok(())
}
