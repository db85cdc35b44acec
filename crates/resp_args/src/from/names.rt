//! Types that can name the fields of a map.
ghost use Rattle.std.specs.Prelude.{◌≡◌, refl};
ghost use Rattle.resp_args.specs.Names.{nat_eq-int_eq, pointwise-map};

use crate::from::FromRedisValue;
use std::hash::Hash;

/// A type that can name the fields of a map: two names are equal exactly where they mean the same.
pub trait FieldName: FromRedisValue + Eq + Hash {
    ghost agrees: { (a b : Self) → Self.eq a b ≡ Self.same (Self.meaning a) (Self.meaning b) };
}

impl FieldName for String {
    ghost agrees = { λ a b. refl };
}

impl FieldName for bool {
    ghost agrees = { λ a b. refl };
}

impl<T: FieldName> FieldName for Vec<T> {
    ghost agrees = { λ a b. pointwise-map T.eq T.same T.meaning T.agrees a.items b.items };
}

impl FieldName for u8 {
    ghost agrees = { nat_eq-int_eq };
}

impl FieldName for u16 {
    ghost agrees = { nat_eq-int_eq };
}

impl FieldName for u32 {
    ghost agrees = { nat_eq-int_eq };
}

impl FieldName for u64 {
    ghost agrees = { nat_eq-int_eq };
}

impl FieldName for usize {
    ghost agrees = { nat_eq-int_eq };
}

impl FieldName for i8 {
    ghost agrees = { λ a b. refl };
}

impl FieldName for i16 {
    ghost agrees = { λ a b. refl };
}

impl FieldName for i32 {
    ghost agrees = { λ a b. refl };
}

impl FieldName for i64 {
    ghost agrees = { λ a b. refl };
}

impl FieldName for isize {
    ghost agrees = { λ a b. refl };
}
