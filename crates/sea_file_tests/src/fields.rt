// Fields one behind another and fields that aren't there; and slots, which no program holds yet.
use sea_fields::{
    Bytes, FieldFault, Short, Slots, Span, put_bytes, put_u8, put_u32, put_u64, take_bytes,
    take_u8, take_u32, take_u64,
};
use std::process::Abort;
use std::test::Fail;

// A number in four bytes, one in eight that all differ, a byte, and a byte row, in 19 bytes.
const FIELDS: &[u8] = b"\0\0\0\x13\x01\x02\x03\x04\x05\x06\x07\x08\x04\0\0\0\x02ab";

// Stops a test where a field is read that isn't there. A byte row that is cut off isn't one that is too long.
fn are_not_there(rt: &impl Abort) {
    let bytes = [0u8, 0, 0, 3, 1, 2, 3];
    assert_eq!(rt; take_u8(&bytes, 7), Err(Short));
    assert_eq!(rt; take_u8(&bytes, usize::MAX), Err(Short));
    assert_eq!(rt; take_u32(&bytes, 4), Err(Short));
    assert_eq!(rt; take_u64(&bytes, 0), Err(Short));
    assert_eq!(rt; take_bytes(&bytes, 0, 3), Ok((Span { from: 4, to: 7 }, 7)));
    assert_eq!(rt; take_bytes(&bytes, 0, 2), Err(FieldFault::TooLong));
    assert_eq!(rt; take_bytes(&bytes[..6], 0, 2), Err(FieldFault::Short));
    assert_eq!(rt; take_bytes(&bytes, 5, 9), Err(FieldFault::Short));
}

#[test]
fn fields_stand_one_behind_another(rt: HostRuntime) -> Result<(), Fail> {
    let mut out = Bytes::new(rt.alloc());
    put_u32(&mut out, 19)?;
    put_u64(&mut out, 0x0102_0304_0506_0708)?;
    put_u8(&mut out, 4)?;
    put_bytes(&mut out, b"ab")?;
    let bytes = out.into_vec();
    assert_eq!(rt; bytes.as_slice(), FIELDS);
    assert_eq!(rt; take_u32(FIELDS, 0), Ok((19, 4)));
    assert_eq!(rt; take_u64(FIELDS, 4), Ok((0x0102_0304_0506_0708, 12)));
    assert_eq!(rt; take_u8(FIELDS, 12), Ok((4, 13)));
    assert_eq!(rt;
        take_bytes(FIELDS, 13, 2),
        Ok((Span { from: 17, to: 19 }, 19))
    );
    assert_eq!(rt; Bytes::from(bytes).len(), 19);
    are_not_there(&rt);
    Ok(())
}

#[test]
fn slots_give_their_vector_back(rt: HostRuntime) -> Result<(), Fail> {
    let slots = Slots::from(vec![in rt.alloc(); 3, 5]?);
    assert_eq!(rt; slots.as_slice(), [3, 5].as_slice());
    assert_eq!(rt; slots.into_vec().as_slice(), [3, 5].as_slice());
    assert!(rt; Slots::new(rt.alloc()).as_slice().is_empty());
    Ok(())
}
