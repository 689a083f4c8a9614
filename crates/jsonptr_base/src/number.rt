//! The integer types whose decimal texts become tokens.
ghost use Rattle.std.specs.Prelude.{◌≡◌, string_bytes, IfOk};
ghost use Rattle.jsonptr_grammar.specs.Text.{Text, dec};
ghost use Rattle.jsonptr_base.specs.Number.{signed_dec};

use std::alloc::{AllocError, Global};

mod sealed {
    pub trait Sealed {}

    impl Sealed for u8 {}

    impl Sealed for u16 {}

    impl Sealed for u32 {}

    impl Sealed for u64 {}

    impl Sealed for u128 {}

    impl Sealed for usize {}

    impl Sealed for i8 {}

    impl Sealed for i16 {}

    impl Sealed for i32 {}

    impl Sealed for i64 {}

    impl Sealed for i128 {}

    impl Sealed for isize {}
}

/// An integer type, for [`Token::from_number`](crate::token::Token::from_number).
///
/// Implemented by the twelve integer types from `u8` to `u128` and `i8` to `i128`, with `usize` and
/// `isize`. No other type can implement it. Contracts see a number's decimal text as
/// `decimal_text`.
///
/// # Examples
///
/// ```rust
/// assert_eq!(rt; Number::to_decimal(-12i16, alloc)?.as_str(), "-12");
/// let largest = "340282366920938463463374607431768211455";
/// assert_eq!(rt; Number::to_decimal(u128::MAX, alloc)?.as_str(), largest);
/// ```
pub trait Number: sealed::Sealed + Copy {
    ghost decimal_text: { Self → Text };

    /// Returns the number in decimal digits without leading zeros, after a `-` if it is negative.
    ///
    /// # Errors
    ///
    /// [`AllocError`] if the allocation for the text fails.
    ///
    /// # Examples
    ///
    /// ```rust
    /// assert_eq!(rt; Number::to_decimal(0usize, alloc)?.as_str(), "0");
    /// ```
    fn to_decimal(self, alloc: Global) -> Result<String, AllocError>
        ensures { IfOk result (λ s. string_bytes s ≡ decimal_text self) };
}

impl Number for u8 {
    ghost decimal_text = { dec };

    fn to_decimal(self, alloc: Global) -> Result<String, AllocError> {
        self.to_string(alloc)
    }
}

impl Number for u16 {
    ghost decimal_text = { dec };

    fn to_decimal(self, alloc: Global) -> Result<String, AllocError> {
        self.to_string(alloc)
    }
}

impl Number for u32 {
    ghost decimal_text = { dec };

    fn to_decimal(self, alloc: Global) -> Result<String, AllocError> {
        self.to_string(alloc)
    }
}

impl Number for u64 {
    ghost decimal_text = { dec };

    fn to_decimal(self, alloc: Global) -> Result<String, AllocError> {
        self.to_string(alloc)
    }
}

impl Number for u128 {
    ghost decimal_text = { dec };

    fn to_decimal(self, alloc: Global) -> Result<String, AllocError> {
        self.to_string(alloc)
    }
}

impl Number for usize {
    ghost decimal_text = { dec };

    fn to_decimal(self, alloc: Global) -> Result<String, AllocError> {
        self.to_string(alloc)
    }
}

impl Number for i8 {
    ghost decimal_text = { signed_dec };

    fn to_decimal(self, alloc: Global) -> Result<String, AllocError> {
        self.to_string(alloc)
    }
}

impl Number for i16 {
    ghost decimal_text = { signed_dec };

    fn to_decimal(self, alloc: Global) -> Result<String, AllocError> {
        self.to_string(alloc)
    }
}

impl Number for i32 {
    ghost decimal_text = { signed_dec };

    fn to_decimal(self, alloc: Global) -> Result<String, AllocError> {
        self.to_string(alloc)
    }
}

impl Number for i64 {
    ghost decimal_text = { signed_dec };

    fn to_decimal(self, alloc: Global) -> Result<String, AllocError> {
        self.to_string(alloc)
    }
}

impl Number for i128 {
    ghost decimal_text = { signed_dec };

    fn to_decimal(self, alloc: Global) -> Result<String, AllocError> {
        self.to_string(alloc)
    }
}

impl Number for isize {
    ghost decimal_text = { signed_dec };

    fn to_decimal(self, alloc: Global) -> Result<String, AllocError> {
        self.to_string(alloc)
    }
}
