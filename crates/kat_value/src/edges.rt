//! Each operation at the edges of its widths, against what is reckoned bit by bit.

use super::*;
use sqlite_items::Items;
use std::alloc::{AllocError, Global};
use std::test::Fail;

/// The least width, one in between, and the two greatest.
const WIDTHS: &[u32] = &[1, 8, 63, 64];

/// The operations on two numbers of one width, and the signed shift among them.
const ON_TWO: &[Op] = &[
    Op::Eq,
    Op::Ult,
    Op::Ule,
    Op::Slt,
    Op::Sle,
    Op::Add,
    Op::Sub,
    Op::Mul,
    Op::Band,
    Op::Bor,
    Op::Bxor,
    Op::Shl,
    Op::Shr,
    Op::Sar,
];

/// Whether the bit at a place is set.
fn has_bit(number: u64, at: u32) -> bool {
    number.unbounded_shr(at) % 2 == 1
}

/// The number whose only bit is at a place, where the bit is set; else none.
fn bit_at(set: bool, at: u32) -> u64 {
    if set { 1u64.unbounded_shl(at) } else { 0 }
}

/// The place of the top bit.
fn top_of(width: u32) -> u32 {
    width.saturating_sub(1)
}

/// All bits of a width.
fn all_bits(width: u32) -> u64 {
    (0..width).fold(0, |number, at| number | bit_at(true, at))
}

/// The numbers at the edges: none, one, the width and its neighbours, both signs at their ends.
fn edges(width: u32) -> [u64; 8] {
    let all = all_bits(width);
    let top = bit_at(true, top_of(width));
    let near = u64::from(width);
    [
        0,
        1 & all,
        near & all,
        near.saturating_sub(1) & all,
        (near + 1) & all,
        top,
        all ^ top,
        all,
    ]
}

/// The sum by the carry from bit to bit.
fn sum(width: u32, a: u64, b: u64, carry_in: bool) -> u64 {
    let mut carry = carry_in;
    let mut sum = 0;
    for at in 0..width {
        let (x, y) = (has_bit(a, at), has_bit(b, at));
        sum |= bit_at((x != y) != carry, at);
        carry = (x && y) || (carry && (x || y));
    }
    sum
}

/// Whether one number is less than another: at the highest bit where they differ it has none.
fn less(width: u32, a: u64, b: u64) -> bool {
    let mut less = false;
    for at in 0..width {
        if has_bit(a, at) != has_bit(b, at) {
            less = has_bit(b, at);
        }
    }
    less
}

/// A number shifted by one place at a time to higher places, at most as often as there are bits.
fn doubled(width: u32, number: u64, times: u64) -> u64 {
    (0..times.min(64)).fold(number, |number, _| sum(width, number, number, false))
}

/// A number shifted by one place at a time to lower places, with this bit at the top.
fn halved(width: u32, number: u64, times: u64, top: bool) -> u64 {
    (0..times.min(64)).fold(number, |number, _| {
        let moved = (0..top_of(width)).fold(0, |low, at| low | bit_at(has_bit(number, at + 1), at));
        moved | bit_at(top, top_of(width))
    })
}

/// The product as a sum of the first number at each bit of the second.
fn product(width: u32, a: u64, b: u64) -> u64 {
    (0..width).fold(0, |total, at| {
        if has_bit(b, at) {
            sum(width, total, doubled(width, a, u64::from(at)), false)
        } else {
            total
        }
    })
}

/// The complement, bit by bit.
fn complement(width: u32, number: u64) -> u64 {
    (0..width).fold(0, |flipped, at| flipped | bit_at(!has_bit(number, at), at))
}

/// So many bits from a place on.
fn bits_from(number: u64, lo: u32, count: u32) -> u64 {
    (0..count).fold(0, |bits, at| {
        bits | bit_at(has_bit(number, lo.saturating_add(at)), at)
    })
}

/// A number with its top bit at all higher places of a width.
fn with_its_sign(width: u32, number: u64, wide: u32) -> u64 {
    (0..wide).fold(0, |signed, at| {
        signed | bit_at(has_bit(number, at.min(top_of(width))), at)
    })
}

/// The bits of a number above those of another.
fn above(high: u64, low_width: u32, low: u64) -> u64 {
    (0..64).fold(0, |whole, at| {
        let set = if at < low_width {
            has_bit(low, at)
        } else {
            has_bit(high, at.saturating_sub(low_width))
        };
        whole | bit_at(set, at)
    })
}

/// What two bits give.
fn of_bits(op: Op, x: bool, y: bool) -> bool {
    match op {
        Op::Band => x && y,
        Op::Bor => x || y,
        _ => x != y,
    }
}

/// What the bits of two numbers give, one place at a time.
fn by_places(op: Op, width: u32, a: u64, b: u64) -> u64 {
    (0..width).fold(0, |number, at| {
        number | bit_at(of_bits(op, has_bit(a, at), has_bit(b, at)), at)
    })
}

/// The operation on two numbers, reckoned bit by bit.
fn reckoned(op: Op, width: u32, a: u64, b: u64) -> Value {
    let top = bit_at(true, top_of(width));
    let number = |number| Value::Bits { width, number };
    match op {
        Op::Eq => Value::Bool(!less(width, a, b) && !less(width, b, a)),
        Op::Ult => Value::Bool(less(width, a, b)),
        Op::Ule => Value::Bool(!less(width, b, a)),
        Op::Slt => Value::Bool(less(width, a ^ top, b ^ top)),
        Op::Sle => Value::Bool(!less(width, b ^ top, a ^ top)),
        Op::Add => number(sum(width, a, b, false)),
        Op::Sub => number(sum(width, a, b ^ all_bits(width), true)),
        Op::Mul => number(product(width, a, b)),
        Op::Band | Op::Bor | Op::Bxor => number(by_places(op, width, a, b)),
        Op::Shl => number(doubled(width, a, b)),
        Op::Shr => number(halved(width, a, b, false)),
        Op::Sar => number(halved(width, a, b, has_bit(a, top_of(width)))),
        _ => Value::Unit,
    }
}

/// Whether an operation gives this on two numbers.
fn agrees(op: Op, width: u32, a: u64, b: u64) -> bool {
    let first = Value::Bits { width, number: a };
    let second = Value::Bits { width, number: b };
    match operate_on_two(op, &first, &second) {
        Some(value) => same_value(&value, &reckoned(op, width, a, b)),
        None => false,
    }
}

#[test]
fn operations_on_two_agree_at_the_edges(rt: HostRuntime) -> Result<(), Fail> {
    for width in WIDTHS {
        for a in edges(*width) {
            for b in edges(*width) {
                for op in ON_TWO {
                    let agrees = agrees(*op, *width, a, b);
                    assert!(rt; agrees, "{op:?} of {a} and {b}, {width} bits");
                }
            }
        }
    }
    Ok(())
}

/// Whether an operation on one number gives this.
fn gives(alloc: Global, op: Op, value: &Value, wanted: &Value) -> Result<bool, AllocError> {
    match operate_on_one(alloc, op, value)? {
        Some(given) => Ok(same_value(&given, wanted)),
        None => Ok(false),
    }
}

/// Whether the complement and the extensions agree on a number; there is no extension to less.
fn wholes_agree(alloc: Global, width: u32, a: u64) -> Result<bool, AllocError> {
    let value = Value::Bits { width, number: a };
    let flipped = complement(width, a);
    let mut agree = gives(
        alloc,
        Op::Bnot,
        &value,
        &Value::Bits {
            width,
            number: flipped,
        },
    )?;
    for wide in WIDTHS {
        let (zext, sext) = (u64::from(*wide), u64::from(*wide));
        let filled = Value::Bits {
            width: *wide,
            number: a,
        };
        let signed = Value::Bits {
            width: *wide,
            number: with_its_sign(width, a, *wide),
        };
        let zeros = gives(alloc, Op::Zext { width: zext }, &value, &filled)?;
        let signs = gives(alloc, Op::Sext { width: sext }, &value, &signed)?;
        agree = agree && zeros == (*wide >= width) && signs == (*wide >= width);
    }
    Ok(agree)
}

/// Whether a slice agrees: the bits from `lo` to `hi`, where both are places and in order.
fn slice_agrees(alloc: Global, width: u32, a: u64, hi: u32, lo: u32) -> Result<bool, AllocError> {
    let op = Op::Slice {
        hi: u64::from(hi),
        lo: u64::from(lo),
    };
    let count = hi.saturating_sub(lo).saturating_add(1);
    let wanted = Value::Bits {
        width: count,
        number: bits_from(a, lo, count),
    };
    let given = gives(alloc, op, &Value::Bits { width, number: a }, &wanted)?;
    Ok(given == (lo <= hi && hi < width))
}

/// The places at the edges of a width, and the first behind it.
fn places(width: u32) -> [u32; 5] {
    let top = top_of(width);
    [0, 1, top.saturating_sub(1), top, width]
}

/// Whether two numbers joined agree, where their bits fit.
fn join_agrees(a: &Value, b: &Value) -> bool {
    let (
        Value::Bits {
            width: high,
            number: x,
        },
        Value::Bits {
            width: low,
            number: y,
        },
    ) = (a, b)
    else {
        return false;
    };
    let width = high.saturating_add(*low);
    let wanted = Value::Bits {
        width,
        number: above(*x, *low, *y),
    };
    match operate_on_two(Op::Cat, a, b) {
        Some(value) => width <= WIDEST && same_value(&value, &wanted),
        None => width > WIDEST,
    }
}

/// Whether a choice between two values gives the one that its test tells, and none by another test.
fn choice_agrees(a: &Value, b: &Value) -> bool {
    let choice = |test: &Value| operate_on_three(Op::Ite, test, a, b);
    let first = choice(&Value::Bool(true)).is_some_and(|value| same_value(&value, a));
    let second = choice(&Value::Bool(false)).is_some_and(|value| same_value(&value, b));
    first && second && choice(a).is_none() == !matches!(a, Value::Bool(_))
}

#[test]
fn operations_on_one_agree_at_the_edges(rt: HostRuntime) -> Result<(), Fail> {
    for width in WIDTHS {
        for a in edges(*width) {
            assert!(rt; wholes_agree(rt.alloc(), *width, a)?, "{a}, {width} bits");
            for hi in places(*width) {
                for lo in places(*width) {
                    let agrees = slice_agrees(rt.alloc(), *width, a, hi, lo)?;
                    assert!(rt; agrees, "{hi} to {lo} of {a}, {width} bits");
                }
            }
        }
    }
    Ok(())
}

#[test]
fn joins_and_choices_agree_at_the_edges(rt: HostRuntime) -> Result<(), Fail> {
    for first in WIDTHS {
        for second in WIDTHS {
            for a in edges(*first) {
                for b in edges(*second) {
                    let high = Value::Bits {
                        width: *first,
                        number: a,
                    };
                    let low = Value::Bits {
                        width: *second,
                        number: b,
                    };
                    assert!(rt;
                        join_agrees(&high, &low),
                        "{a} above {b}, {first} and {second} bits"
                    );
                    let chosen = choice_agrees(&high, &low);
                    assert_eq!(rt;
                        chosen,
                        first == second,
                        "{a} or {b}, {first} and {second} bits"
                    );
                }
            }
        }
    }
    Ok(())
}

#[test]
fn truths_agree(rt: HostRuntime) -> Result<(), Fail> {
    for a in [false, true] {
        for b in [false, true] {
            let (first, second) = (Value::Bool(a), Value::Bool(b));
            let both = operate_on_two(Op::And, &first, &second);
            let either = operate_on_two(Op::Or, &first, &second);
            let same = operate_on_two(Op::Eq, &first, &second);
            let is = |value: Option<Value>, wanted: bool| {
                value.is_some_and(|value| same_value(&value, &Value::Bool(wanted)))
            };
            assert!(rt; is(both, if a { b } else { false }), "{a} and {b}");
            assert!(rt; is(either, if a { true } else { b }), "{a} or {b}");
            assert!(rt; is(same, if a { b } else { !b }), "{a} is {b}");
            assert!(rt;
                choice_agrees(&first, &second),
                "a choice between {a} and {b}"
            );
        }
        let flipped = Value::Bool(if a { false } else { true });
        assert!(rt;
            gives(rt.alloc(), Op::Not, &Value::Bool(a), &flipped)?,
            "not {a}"
        );
    }
    Ok(())
}

#[test]
fn fields_agree_at_the_edges(rt: HostRuntime) -> Result<(), Fail> {
    let mut fields = Items::new(rt.alloc());
    for width in WIDTHS {
        fields.push(Value::Bits {
            width: *width,
            number: all_bits(*width),
        })?;
    }
    let record = Value::Rec { of: 2, fields };
    for (at, width) in WIDTHS.iter().enumerate() {
        let wanted = Value::Bits {
            width: *width,
            number: all_bits(*width),
        };
        let field = at as u32;
        assert!(rt;
            gives(rt.alloc(), Op::Get { of: 2, field }, &record, &wanted)?,
            "field {at}"
        );
        assert!(rt;
            !gives(rt.alloc(), Op::Get { of: 1, field }, &record, &wanted)?,
            "of another"
        );
    }
    assert!(rt; operate_on_one(rt.alloc(), Op::Get { of: 2, field: 4 }, &record)?.is_none());
    Ok(())
}
