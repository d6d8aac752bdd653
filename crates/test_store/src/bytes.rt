//! What contracts do not see of bytes: their size in memory, and that a short vector comes back.
use hlc_bytes::{Bytes, ValueOrMark};
use std::mem::size_of;
use std::test::*;

#[test]
fn a_mark_costs_nothing_beside_a_value(rt: HostRuntime) {
    assert_eq!(rt; (size_of::<Bytes>(), size_of::<ValueOrMark>()), (32, 32));
}

#[test]
fn a_short_vector_comes_back(rt: HostRuntime) -> Result<(), Fail> {
    let mut vec = Vec::with_capacity(rt.alloc(), 100)?;
    vec.push(7)?;
    let room = vec.capacity();
    let Some(bytes) = ValueOrMark::new(Some(Bytes::from_vec(vec))).into_value() else {
        return Err(Fail::from("a value"));
    };
    let again = bytes.into_vec(rt.alloc())?;
    assert_eq!(rt;
        (again.as_slice(), again.capacity()),
        ([7].as_slice(), room)
    );
    Ok(())
}
