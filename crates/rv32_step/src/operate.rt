//! What the operations of two values give, and when branches are taken.
ghost use Rattle.std.specs.Prelude.{◌≡◌, ◌*ℤ◌, ◌/◌, ◌^◌};
ghost use Rattle.std.specs.Int.{cast_unsigned, w64};
ghost use Rattle.rv32_model.specs.declared.instr.Op.TheVariants as ops;
ghost use Rattle.rv32_model.specs.UserTurn.{is_taken, operation};

use rv32_model::{BranchTest, Op};

#[inline(always)]
fn set_less(x: u32, y: u32) -> u32
    ensures { result ≡ operation ops.Slt x y }
{
    if x.cast_signed() < y.cast_signed() {
        1
    } else {
        0
    }
}

#[inline(always)]
fn shift_right_arithmetic(x: u32, y: u32) -> u32
    ensures { result ≡ operation ops.Sra x y }
{
    (x.cast_signed() >> (y % 32)).cast_unsigned()
}

#[inline(always)]
fn upper(product: i64) -> u32
    ensures { result ≡ cast_unsigned w64 product / 2 ^ 32 }
{
    (product.cast_unsigned() >> 32) as u32
}

#[inline(always)]
fn signed_product(x: i32, y: i32) -> i64
    ensures { result ≡ x *ℤ y }
{
    i64::from(x) * i64::from(y)
}

#[inline(always)]
fn multiply_high(x: u32, y: u32) -> u32
    ensures { result ≡ operation ops.Mulh x y }
{
    upper(signed_product(x.cast_signed(), y.cast_signed()))
}

#[inline(always)]
fn multiply_high_signed_unsigned(x: u32, y: u32) -> u32
    ensures { result ≡ operation ops.Mulhsu x y }
{
    upper(i64::from(x.cast_signed()) * i64::from(y))
}

#[inline(always)]
fn multiply_high_unsigned(x: u32, y: u32) -> u32
    ensures { result ≡ operation ops.Mulhu x y }
{
    ((u64::from(x) * u64::from(y)) >> 32) as u32
}

#[inline(always)]
fn divide(x: u32, y: u32) -> u32
    ensures { result ≡ operation ops.Div x y }
{
    if y == 0 {
        return u32::MAX;
    }
    x.cast_signed()
        .wrapping_div(y.cast_signed())
        .cast_unsigned()
}

#[inline(always)]
fn divide_unsigned(x: u32, y: u32) -> u32
    ensures { result ≡ operation ops.Divu x y }
{
    if y == 0 { u32::MAX } else { x / y }
}

#[inline(always)]
fn remainder(x: u32, y: u32) -> u32
    ensures { result ≡ operation ops.Rem x y }
{
    if y == 0 {
        return x;
    }
    x.cast_signed()
        .wrapping_rem(y.cast_signed())
        .cast_unsigned()
}

#[inline(always)]
fn remainder_unsigned(x: u32, y: u32) -> u32
    ensures { result ≡ operation ops.Remu x y }
{
    if y == 0 { x } else { x % y }
}

/// What an operation gives, modulo `2^32`.
#[inline(always)]
pub fn operate(op: Op, x: u32, y: u32) -> u32
    ensures { result ≡ operation op x y }
{
    match op {
        Op::Add => x.wrapping_add(y),
        Op::Sub => x.wrapping_sub(y),
        Op::Sll => x.wrapping_shl(y),
        Op::Slt => set_less(x, y),
        Op::Sltu => u32::from(x < y),
        Op::Xor => x ^ y,
        Op::Srl => x.wrapping_shr(y),
        Op::Sra => shift_right_arithmetic(x, y),
        Op::Or => x | y,
        Op::And => x & y,
        Op::Mul => x.wrapping_mul(y),
        Op::Mulh => multiply_high(x, y),
        Op::Mulhsu => multiply_high_signed_unsigned(x, y),
        Op::Mulhu => multiply_high_unsigned(x, y),
        Op::Div => divide(x, y),
        Op::Divu => divide_unsigned(x, y),
        Op::Rem => remainder(x, y),
        Op::Remu => remainder_unsigned(x, y),
    }
}

/// Whether a branch is taken.
#[inline(always)]
pub fn takes(test: BranchTest, x: u32, y: u32) -> bool
    ensures { result ≡ is_taken test x y }
{
    match test {
        BranchTest::Beq => x == y,
        BranchTest::Bne => x != y,
        BranchTest::Blt => x.cast_signed() < y.cast_signed(),
        BranchTest::Bge => x.cast_signed() >= y.cast_signed(),
        BranchTest::Bltu => x < y,
        BranchTest::Bgeu => x >= y,
    }
}
