//! Values from the meaning of the operations, and a value with all kinds of parts.

use super::*;
use kat_text::Text;
use sqlite_items::{Boxed, Items};
use std::alloc::{AllocError, Global};
use std::test::Fail;

#[test]
fn comparisons(rt: HostRuntime) {
    let cases = [
        (apply(Op::Eq, 8, 5, 5), 1),
        (apply(Op::Ult, 8, 0x80, 0x80), 0),
        (apply(Op::Ult, 8, 0x7f, 0x80), 1),
        (apply(Op::Ule, 8, 0x80, 0x80), 1),
        (apply(Op::Slt, 8, 0x80, 0x7f), 1),
        (apply(Op::Slt, 8, 0x7f, 0x80), 0),
        (apply(Op::Sle, 8, 0x80, 0x80), 1),
        (apply(Op::Slt, 64, 0x8000_0000_0000_0000, 0), 1),
    ];
    for (at, (got, want)) in cases.into_iter().enumerate() {
        assert_eq!(rt; got, want, "case {at}");
    }
}

#[test]
fn sums(rt: HostRuntime) {
    let cases = [
        (apply(Op::Add, 8, 200, 100), 44),
        (apply(Op::Add, 64, 0xffff_ffff_ffff_ffff, 1), 0),
        (apply(Op::Sub, 8, 3, 5), 254),
        (apply(Op::Sub, 64, 1, 2), 0xffff_ffff_ffff_ffff),
        (apply(Op::Mul, 8, 0xff, 0xff), 1),
        (
            apply(Op::Mul, 64, 0xdead_beef_cafe_f00d, 0xdead_beef_cafe_f00d),
            0x12e0_d4fb_bee4_60a9,
        ),
    ];
    for (at, (got, want)) in cases.into_iter().enumerate() {
        assert_eq!(rt; got, want, "case {at}");
    }
}

#[test]
fn shifts(rt: HostRuntime) {
    let cases = [
        (apply(Op::Shl, 64, 1, 63), 0x8000_0000_0000_0000),
        (apply(Op::Shl, 64, 1, 64), 0),
        (apply(Op::Shr, 64, 0x8000_0000_0000_0000, 63), 1),
        (apply(Op::Shr, 64, 0x8000_0000_0000_0000, 64), 0),
        (apply(Op::Sar, 8, 0x80, 1), 0xc0),
        (apply(Op::Sar, 8, 0x80, 9), 0xff),
        (apply(Op::Sar, 8, 0x40, 1), 0x20),
        (
            apply(Op::Sar, 64, 0x8000_0000_0000_0000, 64),
            0xffff_ffff_ffff_ffff,
        ),
    ];
    for (at, (got, want)) in cases.into_iter().enumerate() {
        assert_eq!(rt; got, want, "case {at}");
    }
}

#[test]
fn parts(rt: HostRuntime) {
    let cases = [
        (apply(Op::Bnot, 8, 0x5a, 0), 0xa5),
        (
            apply(Op::Slice { hi: 63, lo: 56 }, 64, 0xdead_beef_cafe_f00d, 0),
            0xde,
        ),
        (
            apply(Op::Slice { hi: 3, lo: 0 }, 64, 0xdead_beef_cafe_f00d, 0),
            0xd,
        ),
        (
            apply(Op::Slice { hi: 15, lo: 4 }, 64, 0xdead_beef_cafe_f00d, 0),
            0xf00,
        ),
        (apply(Op::Cat, 4, 0xa, 0x5), 0xa5),
        (apply(Op::Zext { width: 16 }, 8, 0x80, 0), 0x80),
        (apply(Op::Sext { width: 16 }, 8, 0x80, 0), 0xff80),
    ];
    for (at, (got, want)) in cases.into_iter().enumerate() {
        assert_eq!(rt; got, want, "case {at}");
    }
}

#[test]
fn types_of_operations(rt: HostRuntime) -> Result<(), Fail> {
    let types = declared(rt.alloc())?;
    let (byte, word) = (Some(Ty::Bits(8)), Some(Ty::Bits(32)));
    let truth = Some(Ty::Bool);
    let cases: [(Op, &[Option<Ty>], Option<Ty>); 12] = [
        (Op::Not, &[truth], truth),
        (Op::Eq, &[byte, word], None),
        (Op::Ult, &[byte, byte], truth),
        (Op::Add, &[byte, byte], byte),
        (Op::Add, &[byte, word], None),
        (Op::Slice { hi: 31, lo: 24 }, &[word], byte),
        (Op::Slice { hi: 32, lo: 25 }, &[word], None),
        (Op::Cat, &[word, word], Some(Ty::Bits(64))),
        (Op::Cat, &[word, Some(Ty::Bits(33))], None),
        (Op::Zext { width: 8 }, &[word], None),
        (Op::Ite, &[truth, byte, byte], byte),
        (Op::Get { of: 2, field: 1 }, &[Some(Ty::Rec(2))], byte),
    ];
    for (at, (op, args, want)) in cases.into_iter().enumerate() {
        assert_eq!(rt; type_of_op(&types, op, args), want, "case {at}");
    }
    Ok(())
}

/// An enum with two members, a union with a constructor of it, and a record of that and 8 bits.
fn declared(alloc: Global) -> Result<Types, AllocError> {
    let mut members = Items::new(alloc);
    members.push(Text::new(alloc, "Red")?)?;
    members.push(Text::new(alloc, "Green")?)?;
    let mut ctors = Items::new(alloc);
    ctors.push(Field {
        name: Text::new(alloc, "Painted")?,
        ty: Ty::Enum(0),
    })?;
    let mut fields = Items::new(alloc);
    fields.push(Field {
        name: Text::new(alloc, "paint")?,
        ty: Ty::Union(1),
    })?;
    fields.push(Field {
        name: Text::new(alloc, "size")?,
        ty: Ty::Bits(8),
    })?;
    let mut types = Items::new(alloc);
    types.push(TypeDecl::Enum {
        name: Text::new(alloc, "colour")?,
        members,
    })?;
    types.push(TypeDecl::Union {
        name: Text::new(alloc, "paint")?,
        ctors,
    })?;
    types.push(TypeDecl::Rec {
        name: Text::new(alloc, "thing")?,
        fields,
    })?;
    Ok(types)
}

/// A record of those.
fn thing(alloc: Global, index: u32, number: u64) -> Result<Value, AllocError> {
    let mut fields = Items::new(alloc);
    fields.push(Value::Made {
        of: 1,
        ctor: 0,
        inner: Boxed::new(alloc, Value::Member { of: 0, index })?,
    })?;
    fields.push(Value::Bits { width: 8, number })?;
    Ok(Value::Rec { of: 2, fields })
}

#[test]
fn values_with_parts(rt: HostRuntime) -> Result<(), Fail> {
    let types = declared(rt.alloc())?;
    let value = thing(rt.alloc(), 1, 255)?;
    let copy = copy_value(rt.alloc(), &value)?;
    assert!(rt; same_value(&value, &copy));
    assert!(rt; !same_value(&value, &thing(rt.alloc(), 0, 255)?));
    let cases = [
        (fits(&types, &Ty::Rec(2), &copy), true),
        (fits(&types, &Ty::Rec(1), &copy), false),
        (
            fits(&types, &Ty::Rec(2), &thing(rt.alloc(), 2, 255)?),
            false,
        ),
        (
            fits(&types, &Ty::Rec(2), &thing(rt.alloc(), 1, 256)?),
            false,
        ),
    ];
    for (at, (got, want)) in cases.into_iter().enumerate() {
        assert_eq!(rt; got, want, "case {at}");
    }
    Ok(())
}

#[test]
fn operations_on_values(rt: HostRuntime) {
    let small = Value::Bits {
        width: 8,
        number: 100,
    };
    let large = Value::Bits {
        width: 8,
        number: 200,
    };
    let cases = [
        (
            operate_on_two(Op::Add, &large, &small),
            Value::Bits {
                width: 8,
                number: 44,
            },
        ),
        (operate_on_two(Op::Ult, &small, &large), Value::Bool(true)),
        (operate_on_two(Op::Eq, &small, &large), Value::Bool(false)),
    ];
    for (at, (got, want)) in cases.into_iter().enumerate() {
        assert!(rt;
            got.is_some_and(|value| same_value(&value, &want)),
            "case {at}"
        );
    }
    assert!(rt; operate_on_two(Op::Add, &small, &Value::Unit).is_none());
}
