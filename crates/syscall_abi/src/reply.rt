//! What a process gets back for a system call.
ghost use Rattle.std.specs.Prelude.{◌≡◌, ◌+◌, ◌/◌, ◌%◌, ◌^◌, ◌≤◌, length};
ghost use Rattle.syscall_abi.specs.Reply.{put_reply, reply_of, with_words, is_failure};

use tk_base::{CallRule, ErrorCode, Regs};

/// What a process gets back for a system call (TRD 104, "Return Values"). The variant's number
/// stands in a0, its values in a1 to a3; of a u64 the low word stands before the high one.
#[derive(Clone, Copy, Debug, PartialEq, Eq)]
pub enum Reply {
    /// Failure, 0: the error.
    Failure(ErrorCode),
    /// Failure with u32, 1.
    FailureU32(ErrorCode, u32),
    /// Failure with 2 u32, 2.
    FailureU32U32(ErrorCode, u32, u32),
    /// Failure with u64, 3.
    FailureU64(ErrorCode, u64),
    /// Success, 128.
    Success,
    /// Success with u32, 129.
    SuccessU32(u32),
    /// Success with 2 u32, 130.
    SuccessU32U32(u32, u32),
    /// Success with u64, 131.
    SuccessU64(u64),
    /// Success with 3 u32, 132.
    SuccessU32U32U32(u32, u32, u32),
    /// Success with u32 and u64, 133.
    SuccessU32U64(u32, u64),
}

impl Reply {
    /// Puts the reply into the registers from a0 on. The registers that the variant does not use
    /// stay as they were, and so does pc.
    pub fn put(&self, regs: &mut Regs)
        ensures { regs.new ≡ put_reply self.now regs.old }
    {
        match *self {
            Reply::Failure(error) => put_words(regs, &[0, error.code()]),
            Reply::FailureU32(error, first) => put_words(regs, &[1, error.code(), first]),
            Reply::FailureU32U32(error, first, second) => {
                put_words(regs, &[2, error.code(), first, second]);
            }
            Reply::FailureU64(error, value) => {
                put_words(regs, &[3, error.code(), low_word(value), high_word(value)]);
            }
            Reply::Success => put_words(regs, &[128]),
            Reply::SuccessU32(first) => put_words(regs, &[129, first]),
            Reply::SuccessU32U32(first, second) => put_words(regs, &[130, first, second]),
            Reply::SuccessU64(value) => {
                put_words(regs, &[131, low_word(value), high_word(value)]);
            }
            Reply::SuccessU32U32U32(first, second, third) => {
                put_words(regs, &[132, first, second, third]);
            }
            Reply::SuccessU32U64(first, value) => {
                put_words(regs, &[133, first, low_word(value), high_word(value)]);
            }
        }
    }

    /// Whether the variant is one of the four failures.
    pub fn is_failure(&self) -> bool
        ensures { result ≡ is_failure self.now }
    {
        matches!(
            self,
            Reply::Failure(..)
                | Reply::FailureU32(..)
                | Reply::FailureU32U32(..)
                | Reply::FailureU64(..)
        )
    }
}

/// A driver's answer to a command as the process gets it (TRD 104, "Return Values"): the reply, and
/// the rule that refuses the command, if one does; the reply is then a failure with that rule's
/// error, and nothing else.
pub fn reply_of(answer: Result<Reply, CallRule>) -> (Reply, Option<CallRule>)
    ensures { result ≡ reply_of answer }
{
    match answer {
        Ok(reply) => (reply, None),
        Err(rule) => (Reply::Failure(rule.error()), Some(rule)),
    }
}

/// The low word of a number of 64 bits.
fn low_word(value: u64) -> u32
    ensures { result ≡ value % 2 ^ 32 }
{
    (value % 0x1_0000_0000) as u32
}

/// The high word of a number of 64 bits.
fn high_word(value: u64) -> u32
    ensures { result ≡ value / 2 ^ 32 }
{
    (value / 0x1_0000_0000) as u32
}

/// Puts words into the registers from a0 on.
fn put_words(regs: &mut Regs, words: &[u32])
    requires { length words.now ≤ 4 }
    ensures { regs.new ≡ with_words 10 words.now regs.old }
{
    for (place, word) in words.iter().enumerate() {
        regs.set(10 + place as u8, *word);
    }
}
