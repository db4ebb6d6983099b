//! A value that is kept as words.
ghost use Rattle.std.specs.Prelude.{◌≡◌, ℕ, ◌≤◌, ◌*◌, ◌++◌, length, take, drop, replicate};
ghost use Rattle.std.specs.List.{AllByRecursion};
ghost use Rattle.grant_values.specs.declared.drivers.Driver.{Driver};
ghost use Rattle.grant_values.specs.Values.{KeptValue, fresh_by, value_by, value_words};
ghost use Rattle.grant_values.specs.Words.{IsWord, bytes_of_words, words_of};

/// A value that a driver keeps of a process, as words in the bytes of the process's grant (Levy et
/// al., SOSP 2017, section 4).
pub trait GrantValue: Copy {
    /// How many bytes it takes, a multiple of 4.
    const SIZE: u32;

    ghost SIZE: { ℕ };

    /// How many words it takes.
    ghost count: { ℕ };

    /// The driver whose value it is.
    ghost driver: { Driver };

    /// What the driver keeps.
    ghost kept: { Self → KeptValue };

    /// The value of which it keeps that.
    ghost value_of: { KeptValue → Self };

    /// What is kept forgets no field: it gives the value back.
    ghost tells: { (value : Self) → value_of (kept value) ≡ value };

    /// The value of a grant that was just made: all of its bytes are zero, and it is what
    /// [`GrantValue::take`] takes from such bytes (`taken`).
    fn fresh() -> Self
        ensures value { kept result ≡ fresh_by driver }
        ensures bytes { bytes_of_words (value_words (kept result)) ≡ replicate SIZE 0 }
        ensures taken { value_by (words_of (replicate SIZE 0)) driver ≡ kept result };

    /// Writes the value's words into the first [`GrantValue::SIZE`] bytes, and nothing else. What
    /// [`GrantValue::take`] then takes is the value (`taken`).
    fn put(&self, into: &mut [u8])
        requires { SIZE ≤ length into.old }
        ensures written { into.new
            ≡ bytes_of_words (value_words (kept self.now)) ++ drop SIZE into.old }
        ensures taken { value_by (words_of (take SIZE into.new)) driver ≡ kept self.now }
        ensures back { value_by (value_words (kept self.now)) driver ≡ kept self.now }
        ensures size { length (value_words (kept self.now)) ≡ count }
        ensures fits { AllByRecursion IsWord (value_words (kept self.now)) };

    /// The value that stands in the first [`GrantValue::SIZE`] bytes.
    fn take(from: &[u8]) -> Self
        requires { SIZE ≤ length from.now }
        ensures { kept result ≡ value_by (words_of (take SIZE from.now)) driver };

    /// A word takes four bytes.
    ghost whole: { SIZE ≡ 4 * count };
}
