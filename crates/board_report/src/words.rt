//! The words of the report and of the trace.
ghost use Rattle.std.specs.Prelude.{◌≡◌};
ghost use Rattle.board_report.specs.OwnWords.{RulesHaveWordsOfTheirOwn};
ghost use Rattle.board_report.specs.Words.{access_text, rule_text, call_rule_text, fault_text};

use tk_base::{Access, CallRule, PlaceFault, Rule};

/// The word of an access.
pub fn access_word(access: Access) -> &'static [u8]
    ensures { result.now ≡ access_text access }
{
    match access {
        Access::Fetch => b"fetch",
        Access::Load => b"load",
        Access::Store => b"store",
    }
}

/// The word of a rule.
pub fn rule_word(rule: Rule) -> &'static [u8]
    ensures { result.now ≡ rule_text rule }
{
    match rule {
        Rule::NoRegion => b"no-region",
        Rule::NoExecute => b"no-execute",
        Rule::NoWrite => b"no-write",
        Rule::NoRead => b"no-read",
        Rule::Misaligned => b"misaligned",
        Rule::Illegal => b"illegal",
        Rule::Breakpoint => b"breakpoint",
        Rule::UnknownClass => b"unknown-class",
    }
}

/// The word of the rule that a refused system call broke.
pub fn call_rule_word(rule: CallRule) -> &'static [u8]
    ensures { result.now ≡ call_rule_text rule }
{
    match rule {
        CallRule::Permission => b"permission",
        CallRule::NoDriver => b"no-driver",
        CallRule::NoNumber => b"no-number",
        CallRule::NoCommand => b"no-command",
        CallRule::NoOperation => b"no-operation",
        CallRule::Outside => b"outside",
        CallRule::Range => b"range",
        CallRule::NoRoom => b"no-room",
        CallRule::Break => b"break",
        CallRule::Busy => b"busy",
        CallRule::Empty => b"empty",
        CallRule::Nothing => b"nothing",
        CallRule::Index => b"index",
    }
}

/// The word of why an application was not placed.
pub fn fault_word(fault: PlaceFault) -> &'static [u8]
    ensures { result.now ≡ fault_text fault }
{
    match fault {
        PlaceFault::NoSlot => b"no-slot",
        PlaceFault::FixedTaken => b"fixed-taken",
        PlaceFault::NoRoom => b"no-room",
    }
}

/// No two rules by which calls are refused share a word, and no two by which accesses are denied:
/// so a trace tells which one was broken.
pub fn rules_have_words_of_their_own()
    ensures { RulesHaveWordsOfTheirOwn }
{}
